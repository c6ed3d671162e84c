//! The outcome of simplifying a contour.

ghost use Rattle.std.specs.Prelude.{◌≡◌};
ghost use Rattle.i_overlay.specs.Outcome.{outcome_of};

use overlay_geom::fill_rule::FillRule;
use overlay_geom::options::ContourDirection;

/// The outcome of a contour.
#[derive(Debug, Clone, Copy, PartialEq)]
pub enum Outcome {
    /// It is not simple as it was added, so that it has to be cut.
    NotSimple,
    /// It is simple, and not filled.
    Empty,
    /// It is simple, and stays as it is given.
    AsGiven,
    /// It is simple, and runs against the output direction, so that its points are reversed.
    Reversed,
}

/// Returns the outcome of a simple contour that runs in this direction: under `Positive` a clockwise contour is
/// empty, and under `Negative` a counterclockwise contour; any other is turned to the output direction.
pub(crate) fn outcome_of(
    fill_rule: FillRule,
    output_direction: ContourDirection,
    direction: ContourDirection,
) -> Outcome
    ensures { result ≡ outcome_of fill_rule output_direction direction }
{
    let is_filled = match fill_rule {
        FillRule::EvenOdd => true,
        FillRule::NonZero => true,
        FillRule::Positive => direction == ContourDirection::CounterClockwise,
        FillRule::Negative => direction == ContourDirection::Clockwise,
    };
    if !is_filled {
        Outcome::Empty
    } else if direction == output_direction {
        Outcome::AsGiven
    } else {
        Outcome::Reversed
    }
}
