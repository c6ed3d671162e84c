//! Tests of the filled sides of an edge.

ghost use Rattle.std.specs.Prelude.{◌≡◌, ℕ, Bool};

use overlay_order::vector::SideFill;

/// A test of the filled sides of an edge. A search among the edges of an arrangement stops at the first edge that
/// passes it.
pub trait FillTest: Copy {
    // Whether fill bits pass the test.
    ghost passing: { Self → ℕ → Bool };

    /// Returns whether these filled sides pass the test.
    fn passes(self, fill: SideFill) -> bool
        ensures { result ≡ passing self fill };
}

/// A test that no filled sides pass.
#[derive(Clone, Copy)]
pub(crate) struct NoTest;

impl FillTest for NoTest {
    ghost use Rattle.std.specs.Prelude.{false};

    ghost passing = { λ test fill. false };

    fn passes(self, _fill: SideFill) -> bool {
        false
    }
}
