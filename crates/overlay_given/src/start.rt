//! The windings at the start of an edge, by a ray straight down.

ghost use Rattle.std.specs.Prelude.{◌≡◌, ◌&&◌, ◌^◌, int_lt, int_le, All};
ghost use Rattle.overlay_geom.specs.Edges.{ends_of};
ghost use Rattle.overlay_geom.specs.Plane.{in_plane, is_strictly_below};
ghost use Rattle.overlay_geom.specs.Points.{plain_point, InRange};
ghost use Rattle.overlay_order.specs.Content.{plain_edge, plain_edges, IsHeld};
ghost use Rattle.overlay_given.specs.Beside.{IsNear};
ghost use Rattle.overlay_given.specs.Walk.{WindsAtStart};

use crate::beside::Beside;
use crate::steps::{Steps, counted};
use overlay_geom::number::{IntNumber, WideIntNumber};
use overlay_geom::point::IntPoint;
use overlay_geom::vector::cross_at;
use overlay_order::count::EdgeCount;
use overlay_order::edge::CountedEdge;

/// Returns the windings at the start of the edge: the sums of the counts of the edges strictly below it. Those above
/// the edge have its own counts added.
pub(crate) fn windings_at_start<I: IntNumber, C: EdgeCount>(
    edges: &[CountedEdge<I, C>],
    edge: &CountedEdge<I, C>,
) -> Beside
    requires held { All (IsHeld I.limit) (plain_edges I.whole C.counts edges.now) }
    requires edge { IsHeld I.limit (plain_edge I.whole C.counts edge.now) }
    ensures winds { WindsAtStart (plain_edges I.whole C.counts edges.now)
        (plain_edge I.whole C.counts edge.now) result }
    ensures near { IsNear (2 ^ 97) result }
{
    let mut sum = Beside::none();
    for f in edges {
        if is_below(f, edge.a) {
            sum = sum.plus(counted(f, Steps { below: 1, above: 1 }));
        }
    }
    sum.plus(counted(edge, Steps { below: 0, above: 1 }))
}

// Returns whether the edge lies strictly below the point.
fn is_below<I: IntNumber, C: EdgeCount>(f: &CountedEdge<I, C>, v: IntPoint<I>) -> bool
    requires edge { IsHeld I.limit (plain_edge I.whole C.counts f.now) }
    requires point { InRange I.limit (plain_point I.whole v) }
    ensures { result
        ≡ is_strictly_below (ends_of (plain_edge I.whole C.counts f.now)) (in_plane (plain_point I.whole v)) }
{
    spans(f, v.x) && cross_at(f.a, f.b, v).sign().is_gt()
}

// Returns whether x is in the span of the edge without its right end.
fn spans<I: IntNumber, C: EdgeCount>(f: &CountedEdge<I, C>, x: I) -> bool
    ensures { result ≡ (int_le (I.whole f.now.a.x) (I.whole x) && int_lt (I.whole x) (I.whole f.now.b.x)) }
{
    f.a.x.compare(x).is_le() && x.compare(f.b.x).is_lt()
}
