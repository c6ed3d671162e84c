//! Windings along walks.

ghost use Rattle.overlay_plane.specs.WindingsBeside.{OneWindingToTheNextStep};

/// A step and its next step by a hand have equal windings on that hand's side, for any balanced count of the set's
/// edges.
pub fn one_winding_to_the_next_step()
    ensures { OneWindingToTheNextStep }
{}
