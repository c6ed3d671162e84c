//! How far along an edge a point of it lies, as a fraction of two cross products.

ghost use Rattle.std.specs.Prelude.{◌≡◌, ◌↔◌, ⊤, pos, ◌<ℤ◌, ◌≤ℤ◌, IsTrue};
ghost use Rattle.overlay_exact.specs.Parts.{fraction, start_part, end_part, AreEqual};

use overlay_geom::number::WideIntNumber;
use std::alloc::AllocError;

/// A part of the way along an edge, from its smaller end: the fraction `n / d`, from 0 to 1.
pub struct Part<W: WideIntNumber> {
    /// The numerator.
    pub n: W,
    /// The denominator.
    pub d: W,
    pub ghost begun: { pos 0 ≤ℤ W.whole n },
    pub ghost within: { W.whole n ≤ℤ W.whole d },
    pub ghost positive: { pos 0 <ℤ W.whole d },
}

impl<W: WideIntNumber> Part<W> {
    /// Returns whether it is the part at which the edge's smaller end lies.
    pub fn is_start(self) -> bool
        ensures { IsTrue result ↔ AreEqual (fraction W.whole self.n self.d) start_part }
    {
        self.n.sign().is_eq()
    }

    /// Returns whether it is the part at which the edge's larger end lies.
    pub fn is_end(self) -> bool
        ensures { IsTrue result ↔ AreEqual (fraction W.whole self.n self.d) end_part }
    {
        self.n.compare(self.d).is_eq()
    }
}

impl<W: WideIntNumber> Clone for Part<W> {
    ghost is_clone = { λ x y. y ≡ x };

    ghost is_infallible = { λ _. ⊤ };

    fn clone(&self) -> Result<Part<W>, AllocError> {
        Ok(*self)
    }
}

impl<W: WideIntNumber> Copy for Part<W> {}
