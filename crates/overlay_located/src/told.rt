//! Where the point of a query lies, by the windings beside it and the edges that lead from it.

ghost use Rattle.std.specs.Prelude.{◌≡◌, ◌+ℤ◌, true, false, Contains, All, IfSome};
ghost use Rattle.overlay_geom.specs.Plane.{in_plane};
ghost use Rattle.overlay_geom.specs.Points.{plain_point, InRange};
ghost use Rattle.overlay_geom.specs.Rules.{is_filled};
ghost use Rattle.overlay_order.specs.Content.{plain_edge, plain_edges, IsContent, IsHeld};
ghost use Rattle.overlay_located.specs.Few.{if_some};
ghost use Rattle.overlay_sectors.specs.Located.{LiesIn};
ghost use Rattle.overlay_sectors.specs.Rays.{plain_ray, IsRayHeld};
ghost use Rattle.overlay_sectors.specs.Sectors.{is_low};
ghost use Rattle.overlay_located.specs.Tells.{near_sum};
ghost use Rattle.overlay_located.specs.Queries.{plain_query, sum_on, IsTold, SeesRay, SeesRays};

use crate::query::{Query, sum};
use overlay_geom::edge::{IntEdge, compare_points};
use overlay_geom::edge_pair::is_same;
use overlay_geom::fill_rule::FillRule;
use overlay_geom::number::IntNumber;
use overlay_geom::point::IntPoint;
use overlay_order::count::EdgeCount;
use overlay_order::edge::CountedEdge;
use overlay_relate::location::PointLocation;
use overlay_sectors::flank::Flank;
use overlay_sectors::near::{is_below_near, leads_from};
use overlay_sectors::seen::Seen;

/// Returns where the point lies, if the query at the place is for this point and tells it.
pub(crate) fn location_at<I: IntNumber, C: EdgeCount>(
    fill_rule: FillRule,
    told: &[Query<I, C>],
    place: usize,
    p: IntPoint<I>,
) -> Option<PointLocation>
    ensures { (es : _) → IsContent I.limit es → All (λ q. IsTold es (plain_query I.whole C.counts q)) told.now
        → IfSome result (LiesIn (is_filled fill_rule) es (in_plane (plain_point I.whole p))) }
{
    if place >= told.len() {
        return None;
    }
    let q = told[place];
    if q.alone || !is_same(q.point, p) {
        return None;
    }
    location_by(fill_rule, q)
}

// Returns where the point of the query lies, unless a sum of counts is very great.
fn location_by<I: IntNumber, C: EdgeCount>(
    fill_rule: FillRule,
    q: Query<I, C>,
) -> Option<PointLocation>
    requires { q.alone ≡ false }
    ensures { (es : _) → IsContent I.limit es → IsTold es (plain_query I.whole C.counts q)
        → IfSome result (LiesIn (is_filled fill_rule) es (in_plane (plain_point I.whole q.point))) }
{
    let few = q.through;
    let left = winding_by(q, Flank::Left, None)?;
    let right = winding_by(q, Flank::Right, None)?;
    let none = Seen::nothing();
    let lowest = none.with(fill_rule.fills(left));
    let seen = lowest.with(fill_rule.fills(right));
    let one = seen_by(seen, fill_rule, q, few.first)?;
    let two = seen_by(one, fill_rule, q, few.second)?;
    let three = seen_by(two, fill_rule, q, few.third)?;
    let all = seen_by(three, fill_rule, q, few.fourth)?;
    Some(all.location())
}

// Returns what is found with the sectors next above the edge, if there is one.
fn seen_by<I: IntNumber, C: EdgeCount>(
    seen: Seen,
    fill_rule: FillRule,
    q: Query<I, C>,
    e: Option<CountedEdge<I, C>>,
) -> Option<Seen>
    requires { q.alone ≡ false }
    ensures { (es : _) → IsTold es (plain_query I.whole C.counts q)
        → All (Contains (plain_query I.whole C.counts q).through) (plain_edges I.whole C.counts (if_some e))
        → IfSome result (SeesRays (is_filled fill_rule) es (in_plane (plain_point I.whole q.point))
        (plain_edges I.whole C.counts (if_some e)) seen) }
{
    let Some(e) = e else {
        return Some(seen);
    };
    let left = seen_on(seen, fill_rule, q, &e, Flank::Left)?;
    seen_on(left, fill_rule, q, &e, Flank::Right)
}

// Returns what is found with the sector next above the edge, if it leads into the flank.
fn seen_on<I: IntNumber, C: EdgeCount>(
    seen: Seen,
    fill_rule: FillRule,
    q: Query<I, C>,
    e: &CountedEdge<I, C>,
    flank: Flank,
) -> Option<Seen>
    requires { q.alone ≡ false }
    ensures { (es : _) → IsTold es (plain_query I.whole C.counts q)
        → IfSome result (SeesRay (is_filled fill_rule) es (in_plane (plain_point I.whole q.point)) flank
        (plain_edge I.whole C.counts e.now) seen) }
{
    if !is_held(e) {
        return None;
    }
    if !leads_from(e, q.point, flank) {
        return Some(seen);
    }
    let ray = IntEdge { a: e.a, b: e.b };
    let winding = winding_by(q, flank, Some(ray))?;
    Some(seen.with(fill_rule.fills(winding)))
}

// Returns the winding of the lowest sector of the flank, or of that next above the ray.
fn winding_by<I: IntNumber, C: EdgeCount>(
    q: Query<I, C>,
    flank: Flank,
    ray: Option<IntEdge<I>>,
) -> Option<i64>
    requires { IsRayHeld I.limit (plain_ray I.whole ray) }
    ensures { IfSome result (λ z. z ≡ sum_on (plain_query I.whole C.counts q) flank
        +ℤ near_sum flank (plain_query I.whole C.counts q).through (plain_point I.whole q.point)
        (is_low flank (plain_ray I.whole ray))) }
{
    let few = q.through;
    let none = sum_on(q, flank);
    let one = sum_with(none, q.point, flank, ray, few.first)?;
    let two = sum_with(one, q.point, flank, ray, few.second)?;
    let three = sum_with(two, q.point, flank, ray, few.third)?;
    sum_with(three, q.point, flank, ray, few.fourth)
}

// Returns the winding so far on the flank.
fn sum_on<I: IntNumber, C: EdgeCount>(q: Query<I, C>, flank: Flank) -> i64
    ensures { result ≡ sum_on (plain_query I.whole C.counts q) flank }
{
    match flank {
        Flank::Left => q.left,
        Flank::Right => q.right,
    }
}

// Returns the sum with the count of the edge, if there is one and it is below the sector next above the ray.
fn sum_with<I: IntNumber, C: EdgeCount>(
    so_far: i64,
    p: IntPoint<I>,
    flank: Flank,
    ray: Option<IntEdge<I>>,
    e: Option<CountedEdge<I, C>>,
) -> Option<i64>
    requires { IsRayHeld I.limit (plain_ray I.whole ray) }
    ensures { IfSome result (λ z. z ≡ so_far +ℤ near_sum flank (plain_edges I.whole C.counts (if_some e))
        (plain_point I.whole p) (is_low flank (plain_ray I.whole ray))) }
{
    let Some(e) = e else {
        return Some(so_far);
    };
    if !is_held(&e) {
        return None;
    }
    if is_below_near(&e, p, flank, ray) {
        sum(so_far, i64::from(e.count.subj()))
    } else {
        Some(so_far)
    }
}

/// Returns whether the edge is in range, as each edge of a shape is.
pub(crate) fn is_held<I: IntNumber, C: EdgeCount>(e: &CountedEdge<I, C>) -> bool
    ensures { result ≡ true → IsHeld I.limit (plain_edge I.whole C.counts e.now) }
{
    compare_points(e.a, e.b).is_lt() && is_in_range(e.a) && is_in_range(e.b)
}

// Returns whether both coordinates are in range.
fn is_in_range<I: IntNumber>(p: IntPoint<I>) -> bool
    ensures { result ≡ true → InRange I.limit (plain_point I.whole p) }
{
    p.x.is_in_range() && p.y.is_in_range()
}
