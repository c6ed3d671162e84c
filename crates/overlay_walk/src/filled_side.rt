//! The filled side of a step.

ghost use Rattle.std.specs.Prelude.{◌≡◌};
ghost use Rattle.overlay_geom.specs.Plane.{edge_of};
ghost use Rattle.overlay_plane.specs.Binding.{is_hole};
ghost use Rattle.overlay_plane.specs.Contours.{is_filled_above};
ghost use Rattle.overlay_walk.specs.Steps.{plain_step, plain_steps, filled_hand, IsLong};
ghost use Rattle.overlay_walk.specs.WalkEdges.{numbered_entry};

use crate::numbered_edge::NumberedEdge;
use crate::step::{Step, is_forward};
use overlay_geom::number::IntNumber;
use overlay_geom::options::ContourDirection;

/// Returns whether the filled side of the step is the upper side of its edge. It is the step's left side where the
/// direction is counterclockwise, else its right side.
pub fn is_filled_above<I: IntNumber>(step: &Step<I>, direction: ContourDirection) -> bool
    ensures { result ≡ is_filled_above (filled_hand direction) (plain_step I.whole step.now) }
{
    match direction {
        ContourDirection::CounterClockwise => is_forward(step),
        ContourDirection::Clockwise => !is_forward(step),
    }
}

/// Returns whether the walk is a hole: it begins with an edge that is filled above.
pub fn is_hole<I: IntNumber>(walk: &[Step<I>], direction: ContourDirection) -> bool
    ensures { result ≡ is_hole (filled_hand direction) (plain_steps I.whole walk.now) }
{
    match walk {
        [] => false,
        [first, ..] => is_filled_above(first, direction),
    }
}

/// Returns the edge along which a step leads, with a number.
pub fn edge_along<I: IntNumber>(step: &Step<I>, number: usize) -> NumberedEdge<I>
    requires { IsLong I.limit (plain_step I.whole step.now) }
    ensures { numbered_entry I.whole result ≡ record { edge = edge_of (plain_step I.whole step.now); value = number } }
{
    let Step { from, to, .. } = *step;
    if is_forward(step) {
        NumberedEdge {
            a: from,
            b: to,
            number,
        }
    } else {
        NumberedEdge {
            a: to,
            b: from,
            number,
        }
    }
}
