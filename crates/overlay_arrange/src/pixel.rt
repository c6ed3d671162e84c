//! Test whether an edge meets the pixel of a whole point between its ends: whether some point of the edge rounds to it.

ghost use Rattle.std.specs.Prelude.{◌≡◌, pos, ◌*ℤ◌, ◌-ℤ◌, int_le, cond, ◌&&◌};
ghost use Rattle.std.specs.Ordering.{int_cmp, is_lt, is_le, is_gt, is_ge};
ghost use Rattle.overlay_geom.specs.Edges.{ends_of};
ghost use Rattle.overlay_geom.specs.Points.{plain_point, InRange};
ghost use Rattle.overlay_plane.specs.SnapPoints.{half_girth, is_amid, is_in_box, line_meets};
ghost use Rattle.overlay_order.specs.Content.{plain_edge, IsHeld};
ghost use Rattle.overlay_arrange.specs.HotPoints.{meets_inside};

use crate::crossing::is_end_of;
use overlay_geom::number::IntNumber;
use overlay_geom::point::IntPoint;
use overlay_geom::vector::cross_at;
use overlay_order::count::EdgeCount;
use overlay_order::edge::CountedEdge;
use overlay_pairs::extents::is_less;
use std::cmp::Ordering;

/// Returns whether some point of the edge rounds to the point, which is no end of the edge.
pub(crate) fn meets_pixel_inside<I: IntNumber, C: EdgeCount>(
    e: &CountedEdge<I, C>,
    v: IntPoint<I>,
) -> bool
    requires { IsHeld I.limit (plain_edge I.whole C.counts e.now) }
    ensures { result ≡ meets_inside (plain_edge I.whole C.counts e.now) (plain_point I.whole v) }
{
    is_in_box(e, v) && (!is_end_of(e, v) && line_meets(e, v))
}

/// Returns whether the point lies in the bounding box of the edge.
fn is_in_box<I: IntNumber, C: EdgeCount>(e: &CountedEdge<I, C>, v: IntPoint<I>) -> bool
    ensures { result ≡ is_in_box (ends_of (plain_edge I.whole C.counts e.now)) (plain_point I.whole v) }
{
    is_amid(v.x, e.a.x, e.b.x) && is_amid(v.y, e.a.y, e.b.y)
}

/// Returns whether the coordinate lies between u and v, in whichever order, or equals one of them.
fn is_amid<I: IntNumber>(z: I, u: I, v: I) -> bool
    ensures { result ≡ is_amid (I.whole z) (I.whole u) (I.whole v) }
{
    (is_at_most(u, z) && is_at_most(z, v)) || (is_at_most(v, z) && is_at_most(z, u))
}

/// Returns whether y is at most z.
fn is_at_most<I: IntNumber>(y: I, z: I) -> bool
    ensures { result ≡ int_le (I.whole y) (I.whole z) }
{
    y.compare(z).is_le()
}

/// Returns whether the line of the edge passes through the pixel of the point.
fn line_meets<I: IntNumber, C: EdgeCount>(e: &CountedEdge<I, C>, v: IntPoint<I>) -> bool
    requires edge { IsHeld I.limit (plain_edge I.whole C.counts e.now) }
    requires point { InRange I.limit (plain_point I.whole v) }
    ensures { result ≡ line_meets (ends_of (plain_edge I.whole C.counts e.now)) (plain_point I.whole v) }
{
    let cross = cross_at(e.a, e.b, v);
    let low = order_to_low(e, cross);
    let high = order_to_high(e, cross);
    is_between(is_less(e.a.x, e.b.x), is_less(e.a.y, e.b.y), low, high)
}

/// Returns whether a number that compares so with the bounds of an edge lies between them. If the edge is not `wide`,
/// it is upright, and the lower bound lies between.
fn is_between(wide: bool, rises: bool, low: Ordering, high: Ordering) -> bool
    ensures { result ≡ cond wide
        (is_gt low && cond rises (is_lt high) (is_le high)) (is_ge low && is_lt high) }
{
    if wide {
        low.is_gt() & is_inside(rises, high)
    } else {
        low.is_ge() & high.is_lt()
    }
}

/// Returns whether a number that compares as `high` with the upper bound of an edge keeps to the bound. The edge is not
/// upright. Where it rises, the number stays below the bound.
fn is_inside(rises: bool, high: Ordering) -> bool
    ensures { result ≡ cond rises (is_lt high) (is_le high) }
{
    if rises { high.is_lt() } else { high.is_le() }
}

/// Compares twice the number with the width plus the height of the edge.
pub(crate) fn order_to_high<I: IntNumber, C: EdgeCount>(
    e: &CountedEdge<I, C>,
    cross: I::Wide,
) -> Ordering
    requires { IsHeld I.limit (plain_edge I.whole C.counts e.now) }
    ensures { result ≡ int_cmp (pos 2 *ℤ I.Wide.whole cross)
        (half_girth (ends_of (plain_edge I.whole C.counts e.now))) }
{
    if is_less(e.a.y, e.b.y) {
        I::compare_doubled(cross, e.b.x.minus(e.a.x), e.b.y.minus(e.a.y))
    } else {
        I::compare_doubled(cross, e.b.x.minus(e.a.x), e.a.y.minus(e.b.y))
    }
}

/// Compares twice the number with the negated width plus height of the edge.
pub(crate) fn order_to_low<I: IntNumber, C: EdgeCount>(
    e: &CountedEdge<I, C>,
    cross: I::Wide,
) -> Ordering
    requires { IsHeld I.limit (plain_edge I.whole C.counts e.now) }
    ensures { result ≡ int_cmp (pos 2 *ℤ I.Wide.whole cross)
        (pos 0 -ℤ half_girth (ends_of (plain_edge I.whole C.counts e.now))) }
{
    if is_less(e.a.y, e.b.y) {
        I::compare_doubled(cross, e.a.x.minus(e.b.x), e.a.y.minus(e.b.y))
    } else {
        I::compare_doubled(cross, e.a.x.minus(e.b.x), e.b.y.minus(e.a.y))
    }
}
