//! String counts: how often the shape passes an edge, and the directions in which a string passes it.

ghost use Rattle.std.specs.Prelude.{◌≡◌};
ghost use Rattle.std.specs.Int.RustNames.{bit_or};
ghost use Rattle.overlay_order.specs.Counts.{string_counts, reversed_directions};

use crate::count::EdgeCount;

/// The bit of a string that passes its edge from the smaller to the larger end.
pub const STRING_ALONG: u8 = 1;
/// The bit of a string that passes its edge from the larger to the smaller end.
pub const STRING_AGAINST: u8 = 2;

/// The number of times that the shape passes an edge from its smaller to its larger end, minus the number of times
/// back, and the directions in which a string passes it.
#[derive(Debug, Clone, Copy, PartialEq, Eq)]
pub struct ShapeCountString {
    /// The number for the shape.
    pub subj: i32,
    /// The directions of the string: 0, `STRING_ALONG`, `STRING_AGAINST` or both bits. Higher bits
    /// are ignored.
    pub clip: u8,
}

impl ShapeCountString {
    /// Returns whether a string passes the edge from its smaller to its larger end.
    pub fn is_along(self) -> bool
        ensures { result ≡ (string_counts self).along }
    {
        self.clip & STRING_ALONG != 0
    }

    /// Returns whether a string passes the edge from its larger to its smaller end.
    pub fn is_against(self) -> bool
        ensures { result ≡ (string_counts self).against }
    {
        self.clip & STRING_AGAINST != 0
    }
}

/// Returns the directions of a string seen from the other end of its edge.
fn reversed_directions(directions: u8) -> u8
    ensures { result ≡ reversed_directions directions }
{
    (directions & STRING_ALONG) << 1 | (directions & STRING_AGAINST) >> 1
}

impl EdgeCount for ShapeCountString {
    ghost use Rattle.std.specs.Prelude.{◌+ℤ◌, neg_ℤ};

    type Store = ();

    ghost counts = { string_counts };

    ghost merges = { λ c k m. (m.subj ≡ c.subj +ℤ k.subj) × (m.clip ≡ bit_or c.clip k.clip) };

    ghost splits = { λ c p. p ≡ c };

    ghost reverses = { λ c t. (t.subj ≡ neg_ℤ c.subj) × (t.clip ≡ reversed_directions c.clip) };

    fn may_part() -> bool {
        true
    }

    fn is_nothing(self) -> bool {
        self.subj == 0 && !self.is_along() && !self.is_against()
    }

    fn weight(self) -> u32 {
        self.subj.unsigned_abs() + u32::from(self.is_along()) + u32::from(self.is_against())
    }

    fn subj(self) -> i32 {
        self.subj
    }

    fn clip(self) -> i32 {
        0
    }

    fn merged(self, other: ShapeCountString, _store: &mut ()) -> ShapeCountString {
        ShapeCountString {
            subj: self.subj + other.subj,
            clip: self.clip | other.clip,
        }
    }

    fn split(self, _store: &mut ()) -> ShapeCountString {
        self
    }

    fn reversed(self, _store: &mut ()) -> ShapeCountString {
        ShapeCountString {
            subj: -self.subj,
            clip: reversed_directions(self.clip),
        }
    }
}
