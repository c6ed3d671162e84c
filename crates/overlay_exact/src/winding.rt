//! How a winding changes along an edge, where another edge meets it.

ghost use Rattle.std.specs.Prelude.{◌≡◌};
ghost use Rattle.overlay_geom.specs.Points.{plain_point, InRange};
ghost use Rattle.overlay_geom.specs.Resolved.{plain_edge, IsLongEdge};
ghost use Rattle.overlay_scaled.specs.BesidePieces.{is_right_of};
ghost use Rattle.overlay_exact.specs.WindingSteps.{winding_step};

use overlay_geom::edge::IntEdge;
use overlay_geom::number::{IntNumber, WideIntNumber};
use overlay_geom::point::IntPoint;
use overlay_geom::vector::cross_at;

/// Returns how many times the counts of f are added to the winding right of e, where e passes a point of f from its
/// smaller end on: 1 where f ends right of e's line and does not start there, -1 where it starts there and does not
/// end there, else 0.
pub fn winding_step<I: IntNumber>(e: IntEdge<I>, f: IntEdge<I>) -> i32
    requires one { IsLongEdge I.limit (plain_edge I.whole e) }
    requires other { IsLongEdge I.limit (plain_edge I.whole f) }
    ensures { result ≡ winding_step (plain_edge I.whole e) (plain_edge I.whole f) }
{
    i32::from(is_right_of(e, f.b)) - i32::from(is_right_of(e, f.a))
}

// Returns whether the point lies to the right of the edge's line.
fn is_right_of<I: IntNumber>(e: IntEdge<I>, v: IntPoint<I>) -> bool
    requires edge { IsLongEdge I.limit (plain_edge I.whole e) }
    requires point { InRange I.limit (plain_point I.whole v) }
    ensures { result ≡ is_right_of (plain_edge I.whole e) (plain_point I.whole v) }
{
    cross_at(e.a, e.b, v).sign().is_lt()
}
