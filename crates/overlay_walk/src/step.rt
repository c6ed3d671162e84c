//! Steps along edges.

ghost use Rattle.std.specs.Prelude.{◌≡◌};
ghost use Rattle.overlay_geom.specs.Plane.{edge_of, is_forward};
ghost use Rattle.overlay_geom.specs.Resolved.{plain_edge, IsLongEdge};
ghost use Rattle.overlay_walk.specs.Steps.{plain_step, IsLong};

use overlay_geom::edge::{IntEdge, is_before};
use overlay_geom::number::IntNumber;
use overlay_geom::point::IntPoint;

/// A step along an edge, and the number of this edge.
#[derive(Debug, Clone, Copy, PartialEq, Eq)]
pub struct Step<I> {
    /// The start of the step.
    pub from: IntPoint<I>,
    /// The end of the step.
    pub to: IntPoint<I>,
    /// The place of its edge in the list from which the steps are made.
    pub edge: usize,
}

/// Returns whether the step leads from its edge's smaller end to the larger end.
pub fn is_forward<I: IntNumber>(step: &Step<I>) -> bool
    ensures { result ≡ is_forward (plain_step I.whole step.now) }
{
    is_before(step.from, step.to)
}

/// Returns the edge along which the step leads.
pub(crate) fn stepped_edge<I: IntNumber>(step: Step<I>) -> IntEdge<I>
    requires { IsLong I.limit (plain_step I.whole step) }
    ensures edge { plain_edge I.whole result ≡ edge_of (plain_step I.whole step) }
    ensures long { IsLongEdge I.limit (plain_edge I.whole result) }
{
    if is_forward(&step) {
        IntEdge {
            a: step.from,
            b: step.to,
        }
    } else {
        IntEdge {
            a: step.to,
            b: step.from,
        }
    }
}
