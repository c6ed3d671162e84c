//! Laws of simple contours.

ghost use Rattle.i_overlay.specs.Laws.{SimpleContoursWindOnce};
ghost use Rattle.i_overlay.specs.OneOutcome.{OneOutcome};

/// What is left of a simple contour meets the overlay theorem for the subject. It winds exactly once, in the output
/// direction, round each point that the fill rule fills. Round any other it winds zero times.
pub fn simple_contours_wind_once()
    ensures { SimpleContoursWindOnce }
{}

/// What becomes of a contour is one thing: of the contour and the edges that are left of its own, two outcomes are
/// equal.
pub fn one_outcome()
    ensures { OneOutcome }
{}
