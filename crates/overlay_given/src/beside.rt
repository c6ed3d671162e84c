//! Windings of two shapes on the two sides of an edge.

ghost use Rattle.std.specs.Prelude.{◌≡◌, ◌^◌, pos, ◌+ℤ◌};
ghost use Rattle.overlay_geom.specs.Rules.{is_filled};
ghost use Rattle.overlay_given.specs.Beside.{IsNear, filled_beside};

use crate::sides::FilledSides;
use overlay_geom::fill_rule::FillRule;

/// Windings of the subject and of the clip below an edge and above it, or numbers that are added to such windings.
#[derive(Debug, Clone, Copy)]
pub struct Beside {
    /// The subject's, below the edge.
    pub subj_below: i128,
    /// The subject's, above it.
    pub subj_above: i128,
    /// The clip's, below the edge.
    pub clip_below: i128,
    /// The clip's, above it.
    pub clip_above: i128,
}

impl Beside {
    /// Returns four times 0.
    pub(crate) fn none() -> Beside
        ensures { result ≡ record { subj_below = pos 0; subj_above = pos 0; clip_below = pos 0; clip_above = pos 0 } }
    {
        Beside {
            subj_below: 0,
            subj_above: 0,
            clip_below: 0,
            clip_above: 0,
        }
    }

    /// Returns the sums of the windings and of those of `other`. No number is further than 2^100 from 0.
    pub(crate) fn plus(self, other: Beside) -> Beside
        requires this { IsNear (2 ^ 100) self }
        requires other { IsNear (2 ^ 100) other }
        ensures subj_below { result.subj_below ≡ self.subj_below +ℤ other.subj_below }
        ensures subj_above { result.subj_above ≡ self.subj_above +ℤ other.subj_above }
        ensures clip_below { result.clip_below ≡ self.clip_below +ℤ other.clip_below }
        ensures clip_above { result.clip_above ≡ self.clip_above +ℤ other.clip_above }
    {
        Beside {
            subj_below: self.subj_below + other.subj_below,
            subj_above: self.subj_above + other.subj_above,
            clip_below: self.clip_below + other.clip_below,
            clip_above: self.clip_above + other.clip_above,
        }
    }

    /// Returns the sides that the shapes fill under the rule.
    pub(crate) fn filled(self, rule: FillRule) -> FilledSides
        ensures { result ≡ filled_beside (is_filled rule) self }
    {
        FilledSides {
            subj_above: fills(rule, self.subj_above),
            subj_below: fills(rule, self.subj_below),
            clip_above: fills(rule, self.clip_above),
            clip_below: fills(rule, self.clip_below),
        }
    }
}

// Returns whether the rule fills the winding.
fn fills(rule: FillRule, winding: i128) -> bool
    ensures { result ≡ is_filled rule winding }
{
    match rule {
        FillRule::EvenOdd => winding.unsigned_abs() % 2 == 1,
        FillRule::NonZero => winding != 0,
        FillRule::Positive => winding > 0,
        FillRule::Negative => winding < 0,
    }
}
