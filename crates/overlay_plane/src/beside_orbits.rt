//! Windings beside the steps of orbits, and steps whose counts are balanced.

ghost use Rattle.overlay_plane.specs.BesideOrbits.{OneWindingToTheNext, OneWindingAlongOrbits};
ghost use Rattle.overlay_plane.specs.BesideOrbits.{WindingAcrossAStep};
ghost use Rattle.overlay_plane.specs.BesideOrbits.{WindingAcrossAlternatingSteps};
ghost use Rattle.overlay_plane.specs.BesideOrbits.{OrbitsHaveEachOnce, OrbitsAreBalanced};
ghost use Rattle.overlay_plane.specs.BesideOrbits.{AlternatingStepsAreBalanced};
ghost use Rattle.overlay_plane.specs.BesideOrbits.{ClosedPartsAreBalanced};
ghost use Rattle.overlay_plane.specs.LeftmostSteps.{LeftmostStepsExist, NothingBeforeTheSteps};

/// A step and its next step by a hand have an equal winding on the hand's side.
pub fn one_winding_to_the_next()
    ensures { OneWindingToTheNext }
{}

/// Along an orbit by a hand, the winding on the hand's side is constant.
pub fn one_winding_along_orbits()
    ensures { OneWindingAlongOrbits }
{}

/// Across a step the winding rises by the number of times that it is taken, less the number of times that its reverse
/// is.
pub fn winding_across_a_step()
    ensures { WindingAcrossAStep }
{}

/// In steps that alternate, each once, the winding rises by 1 across a step that is taken. Across any other step of the
/// set it does not change.
pub fn winding_across_alternating_steps()
    ensures { WindingAcrossAlternatingSteps }
{}

/// No step stands twice in an orbit.
pub fn orbits_have_each_once()
    ensures { OrbitsHaveEachOnce }
{}

/// An orbit's steps have balanced counts.
pub fn orbits_are_balanced()
    ensures { OrbitsAreBalanced }
{}

/// Steps that alternate, each once, have balanced counts.
pub fn alternating_steps_are_balanced()
    ensures { AlternatingStepsAreBalanced }
{}

/// The steps that a closed test takes have balanced counts, and so do those that it leaves.
pub fn closed_parts_are_balanced()
    ensures { ClosedPartsAreBalanced }
{}

/// Steps taken have a leftmost lowest end, and a top edge and a lowest edge there.
pub fn leftmost_steps_exist()
    ensures { LeftmostStepsExist }
{}

/// The winding of the steps taken is 0 up to their leftmost lowest point, above their top edge there, and below their
/// lowest edge.
pub fn nothing_before_the_steps()
    ensures { NothingBeforeTheSteps }
{}
