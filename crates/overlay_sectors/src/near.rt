//! The windings of the sectors round a point.

ghost use Rattle.std.specs.Prelude.{◌≡◌, ◌&&◌, ◌^◌, ◌+ℤ◌, ◌≤ℤ◌, ◌<ℤ◌, pos, int_lt, int_le, true, cond, map};
ghost use Rattle.std.specs.Ordering.{int_eq, is_eq, is_gt};
ghost use Rattle.overlay_geom.specs.Edges.{ends_of, subj_of};
ghost use Rattle.overlay_geom.specs.Numbers.{Within};
ghost use Rattle.overlay_geom.specs.Plane.{in_plane, side};
ghost use Rattle.overlay_geom.specs.Points.{plain_point};
ghost use Rattle.overlay_order.specs.Content.{plain_edge, plain_edges, IsHeld, IsContent};
ghost use Rattle.overlay_relate.specs.Blocks.{plain_blocks};
ghost use Rattle.overlay_sectors.specs.Blocks.{AreBlocked};
ghost use Rattle.overlay_sectors.specs.Rays.{plain_ray, IsRayHeld};
ghost use Rattle.overlay_geom.specs.Resolved.{plain_edge as plain_int_edge};
ghost use Rattle.overlay_sectors.specs.Sectors.{spans_beside, leads_from, far_end, is_low};
ghost use Rattle.overlay_sectors.specs.Sectors.{is_under_near, is_below_near, winding_near};

use crate::blocks::{BlockedEdges, passed_from};
use crate::flank::Flank;
use crate::form::EdgeForm;
use overlay_geom::edge::IntEdge;
use overlay_geom::number::{IntNumber, WideIntNumber};
use overlay_geom::point::IntPoint;
use overlay_geom::vector::cross_at;
use overlay_order::count::EdgeCount;
use overlay_order::edge::CountedEdge;
use overlay_relate::blocks::Block;
use overlay_relate::form::FormOf;
use std::cmp::Ordering;

/// Returns the winding of the subject in a sector of the flank of the point: the lowest, or that next above the edge
/// `ray`, which leads from the point.
pub(crate) fn winding_near<I: IntNumber, C: EdgeCount, E: EdgeForm<I, C>, B: FormOf<Block<I>>>(
    shape: &BlockedEdges<E, B>,
    p: IntPoint<I>,
    flank: Flank,
    ray: Option<IntEdge<I>>,
) -> i64
    requires content { IsContent I.limit (plain_edges I.whole C.counts (map E.meant shape.now.edges.now)) }
    requires blocked { AreBlocked (plain_edges I.whole C.counts (map E.meant shape.now.edges.now))
        (plain_blocks I.whole (map B.meant shape.now.blocks.now))
        (plain_blocks I.whole (map B.meant shape.now.groups.now)) }
    requires ray { IsRayHeld I.limit (plain_ray I.whole ray) }
    ensures { result ≡ winding_near flank subj_of (plain_edges I.whole C.counts (map E.meant shape.now.edges.now))
        (in_plane (plain_point I.whole p)) (is_low flank (plain_ray I.whole ray)) }
{
    let edges = shape.edges;
    let mut counted = Counted { sum: 0 };
    let mut at = 0;
    while at < edges.len() {
        let next = passed_from(shape.blocks, shape.groups, at, p);
        if at < next {
            at = next;
        } else {
            let edge = edges[at].edge();
            counted = counted_with(counted, &edge, p, flank, ray);
            at += 1;
        }
    }
    counted.sum
}

// A sum of counts.
#[derive(Clone, Copy)]
struct Counted {
    // the sum
    sum: i64,
}

impl Counted {
    // Returns the sum with the edge's count of the subject.
    fn with<I, C: EdgeCount>(self, e: &CountedEdge<I, C>) -> Counted
        requires { Within (2 ^ 31) self.sum }
        ensures { result.sum ≡ self.sum +ℤ (C.counts e.now.count).subj }
    {
        Counted {
            sum: self.sum + i64::from(e.count.subj()),
        }
    }
}

// Returns the sum with the edge's count of the subject, if the edge is below the sector.
fn counted_with<I: IntNumber, C: EdgeCount>(
    counted: Counted,
    e: &CountedEdge<I, C>,
    p: IntPoint<I>,
    flank: Flank,
    ray: Option<IntEdge<I>>,
) -> Counted
    requires sum { Within (2 ^ 31) counted.sum }
    requires edge { IsHeld I.limit (plain_edge I.whole C.counts e.now) }
    requires ray { IsRayHeld I.limit (plain_ray I.whole ray) }
    ensures { result.sum ≡ counted.sum +ℤ cond (is_below_near flank (ends_of (plain_edge I.whole C.counts e.now))
        (in_plane (plain_point I.whole p))
        (is_low flank (plain_ray I.whole ray) (ends_of (plain_edge I.whole C.counts e.now))))
        (C.counts e.now.count).subj (pos 0) }
{
    if is_below_near(e, p, flank, ray) {
        return counted.with(e);
    }
    counted
}

/// Returns whether the edge is below the points of the sector.
pub fn is_below_near<I: IntNumber, C: EdgeCount>(
    e: &CountedEdge<I, C>,
    p: IntPoint<I>,
    flank: Flank,
    ray: Option<IntEdge<I>>,
) -> bool
    requires edge { IsHeld I.limit (plain_edge I.whole C.counts e.now) }
    requires ray { IsRayHeld I.limit (plain_ray I.whole ray) }
    ensures { result ≡ is_below_near flank (ends_of (plain_edge I.whole C.counts e.now))
        (in_plane (plain_point I.whole p))
        (is_low flank (plain_ray I.whole ray) (ends_of (plain_edge I.whole C.counts e.now))) }
{
    spans_beside(e, p, flank) && is_under(e, p, flank, ray)
}

// Returns whether the edge, which has points on the flank, passes below the point, or leads from it and is low.
fn is_under<I: IntNumber, C: EdgeCount>(
    e: &CountedEdge<I, C>,
    p: IntPoint<I>,
    flank: Flank,
    ray: Option<IntEdge<I>>,
) -> bool
    requires edge { IsHeld I.limit (plain_edge I.whole C.counts e.now) }
    requires ray { IsRayHeld I.limit (plain_ray I.whole ray) }
    requires spans { spans_beside flank (ends_of (plain_edge I.whole C.counts e.now))
        (in_plane (plain_point I.whole p)) ≡ true }
    ensures { result ≡ is_under_near (ends_of (plain_edge I.whole C.counts e.now)) (in_plane (plain_point I.whole p))
        (is_low flank (plain_ray I.whole ray) (ends_of (plain_edge I.whole C.counts e.now))) }
{
    match height_over(e, p) {
        Ordering::Greater => true,
        Ordering::Equal => is_low(e, flank, ray),
        Ordering::Less => false,
    }
}

/// Returns whether the edge leads from the point into the flank.
pub fn leads_from<I: IntNumber, C: EdgeCount>(
    e: &CountedEdge<I, C>,
    p: IntPoint<I>,
    flank: Flank,
) -> bool
    requires { IsHeld I.limit (plain_edge I.whole C.counts e.now) }
    ensures { result ≡ leads_from flank (ends_of (plain_edge I.whole C.counts e.now))
        (in_plane (plain_point I.whole p)) }
{
    spans_beside(e, p, flank) && height_over(e, p).is_eq()
}

// Returns whether the edge has points at the point's x-coordinate and on this flank of it.
fn spans_beside<I: IntNumber, C: EdgeCount>(
    e: &CountedEdge<I, C>,
    p: IntPoint<I>,
    flank: Flank,
) -> bool
    ensures { result ≡ spans_beside flank (ends_of (plain_edge I.whole C.counts e.now))
        (in_plane (plain_point I.whole p)) }
{
    match flank {
        Flank::Left => spans_left(e, p.x),
        Flank::Right => spans_right(e, p.x),
    }
}

// Returns whether x is in the span of the edge without its left end.
fn spans_left<I: IntNumber, C: EdgeCount>(e: &CountedEdge<I, C>, x: I) -> bool
    ensures { result ≡ (int_lt (I.whole e.now.a.x) (I.whole x) && int_le (I.whole x) (I.whole e.now.b.x)) }
{
    e.a.x.compare(x).is_lt() && x.compare(e.b.x).is_le()
}

// Returns whether x is in the span of the edge without its right end.
fn spans_right<I: IntNumber, C: EdgeCount>(e: &CountedEdge<I, C>, x: I) -> bool
    ensures { result ≡ (int_le (I.whole e.now.a.x) (I.whole x) && int_lt (I.whole x) (I.whole e.now.b.x)) }
{
    e.a.x.compare(x).is_le() && x.compare(e.b.x).is_lt()
}

/// Returns how high the point lies over the edge, which has points at its x-coordinate and is not upright: `Equal` on
/// it. Only a point between the heights of the ends is looked at nearer, so it need not be in range.
pub fn height_over<I: IntNumber, C: EdgeCount>(e: &CountedEdge<I, C>, p: IntPoint<I>) -> Ordering
    requires edge { IsHeld I.limit (plain_edge I.whole C.counts e.now) }
    requires from { I.whole e.now.a.x ≤ℤ I.whole p.x }
    requires to { I.whole p.x ≤ℤ I.whole e.now.b.x }
    requires wide { I.whole e.now.a.x <ℤ I.whole e.now.b.x }
    ensures above { is_gt result
        ≡ int_lt (pos 0) (side (ends_of (plain_edge I.whole C.counts e.now)) (in_plane (plain_point I.whole p))) }
    ensures level { is_eq result
        ≡ int_eq (side (ends_of (plain_edge I.whole C.counts e.now)) (in_plane (plain_point I.whole p))) (pos 0) }
{
    if is_over_both(e, p.y) {
        return Ordering::Greater;
    }
    if is_under_both(e, p.y) {
        return Ordering::Less;
    }
    cross_at(e.a, e.b, p).sign()
}

// Returns whether y is greater than at both ends.
fn is_over_both<I: IntNumber, C: EdgeCount>(e: &CountedEdge<I, C>, y: I) -> bool
    ensures { result ≡ (int_lt (I.whole e.now.a.y) (I.whole y) && int_lt (I.whole e.now.b.y) (I.whole y)) }
{
    e.a.y.compare(y).is_lt() && e.b.y.compare(y).is_lt()
}

// Returns whether y is less than at both ends.
fn is_under_both<I: IntNumber, C: EdgeCount>(e: &CountedEdge<I, C>, y: I) -> bool
    ensures { result ≡ (int_lt (I.whole y) (I.whole e.now.a.y) && int_lt (I.whole y) (I.whole e.now.b.y)) }
{
    y.compare(e.a.y).is_lt() && y.compare(e.b.y).is_lt()
}

// Returns whether the edge, which leads from the point, is below the sector.
fn is_low<I: IntNumber, C: EdgeCount>(
    e: &CountedEdge<I, C>,
    flank: Flank,
    ray: Option<IntEdge<I>>,
) -> bool
    requires edge { IsHeld I.limit (plain_edge I.whole C.counts e.now) }
    requires ray { IsRayHeld I.limit (plain_ray I.whole ray) }
    ensures { result
        ≡ is_low flank (plain_ray I.whole ray) (ends_of (plain_edge I.whole C.counts e.now)) }
{
    match ray {
        Some(ray) => !cross_at(e.a, e.b, far_end(ray, flank)).sign().is_lt(),
        None => false,
    }
}

// Returns the end of the edge on the flank.
fn far_end<I: IntNumber>(ray: IntEdge<I>, flank: Flank) -> IntPoint<I>
    ensures { plain_point I.whole result ≡ far_end flank (plain_int_edge I.whole ray) }
{
    match flank {
        Flank::Right => ray.b,
        Flank::Left => ray.a,
    }
}
