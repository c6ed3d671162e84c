//! Where a point lies by one edge: on it, above it, or neither.

ghost use Rattle.std.specs.Prelude.{◌≡◌, ◌↔◌, ◌&&◌, ◌||◌, ◌≤ℤ◌, int_lt, [], ◌∷◌, true};
ghost use Rattle.std.specs.Ordering.{is_eq, is_gt};
ghost use Rattle.overlay_geom.specs.Plane.{in_plane, is_strictly_below, IsOn};
ghost use Rattle.overlay_geom.specs.Points.{plain_point};
ghost use Rattle.overlay_geom.specs.Resolved.{plain_edge, IsLongEdge};
ghost use Rattle.overlay_relate.specs.Locations.{IsLocatedBy};

use crate::location::PointLocation;
use overlay_geom::edge::IntEdge;
use overlay_geom::number::{IntNumber, WideIntNumber};
use overlay_geom::point::IntPoint;
use overlay_geom::vector::cross_at;
use overlay_pairs::extents::is_less;
use std::cmp::Ordering;

/// Where the point lies by the edge alone: `Boundary` where it is on it, `Inside` where the edge is strictly below it,
/// else `Outside`. The point need not be in range.
pub(crate) fn location_by<I: IntNumber>(e: &IntEdge<I>, p: IntPoint<I>) -> PointLocation
    requires { IsLongEdge I.limit (plain_edge I.whole e.now) }
    ensures { IsLocatedBy (plain_edge I.whole e.now ∷ []) (in_plane (plain_point I.whole p)) result }
{
    if is_beside(e, p) {
        return PointLocation::Outside;
    }
    match height_over(e, p) {
        Ordering::Equal => PointLocation::Boundary,
        Ordering::Greater if is_less(p.x, e.b.x) => PointLocation::Inside,
        _ => PointLocation::Outside,
    }
}

// How high the point lies over the edge, which has points at its x-coordinate: `Greater` where it lies above them
// all, `Equal` where it is one of them, and else `Less`. Only a point between the heights of the ends is looked at
// nearer, so it need not be in range.
fn height_over<I: IntNumber>(e: &IntEdge<I>, p: IntPoint<I>) -> Ordering
    requires edge { IsLongEdge I.limit (plain_edge I.whole e.now) }
    requires from { I.whole e.now.a.x ≤ℤ I.whole p.x }
    requires to { I.whole p.x ≤ℤ I.whole e.now.b.x }
    ensures on { (is_eq result ≡ true) ↔ IsOn (plain_edge I.whole e.now) (in_plane (plain_point I.whole p)) }
    ensures above { (int_lt (I.whole p.x) (I.whole e.now.b.x) && is_gt result)
        ≡ is_strictly_below (plain_edge I.whole e.now) (in_plane (plain_point I.whole p)) }
{
    if is_over_both(e, p) {
        return Ordering::Greater;
    }
    if is_under_both(e, p) {
        return Ordering::Less;
    }
    cross_at(e.a, e.b, p).sign()
}

// Whether the point lies left of the edge or right of it.
fn is_beside<I: IntNumber>(e: &IntEdge<I>, p: IntPoint<I>) -> bool
    ensures { result ≡ (int_lt (I.whole p.x) (I.whole e.now.a.x) || int_lt (I.whole e.now.b.x) (I.whole p.x)) }
{
    is_less(p.x, e.a.x) || is_less(e.b.x, p.x)
}

// Whether the point lies higher than both ends.
fn is_over_both<I: IntNumber>(e: &IntEdge<I>, p: IntPoint<I>) -> bool
    ensures { result ≡ (int_lt (I.whole e.now.a.y) (I.whole p.y) && int_lt (I.whole e.now.b.y) (I.whole p.y)) }
{
    is_less(e.a.y, p.y) && is_less(e.b.y, p.y)
}

// Whether the point lies lower than both ends.
fn is_under_both<I: IntNumber>(e: &IntEdge<I>, p: IntPoint<I>) -> bool
    ensures { result ≡ (int_lt (I.whole p.y) (I.whole e.now.a.y) && int_lt (I.whole p.y) (I.whole e.now.b.y)) }
{
    is_less(p.y, e.a.y) && is_less(p.y, e.b.y)
}
