//! Edges between two different points.

ghost use Rattle.std.specs.Prelude.{◌≡◌, option_map, option_to_list, IfSome};
ghost use Rattle.overlay_geom.specs.Plane.{point_lt};
ghost use Rattle.overlay_geom.specs.Points.{plain_point, InRange};
ghost use Rattle.overlay_geom.specs.Resolved.{point_cmp, plain_edge, edges_between, IsLongEdge};

use crate::number::IntNumber;
use crate::point::IntPoint;
use std::cmp::Ordering;

/// An edge between two different points, held with the smaller end first. Points are ordered by x, then by y.
#[derive(Debug, Clone, Copy, PartialEq, Eq)]
pub struct IntEdge<I> {
    /// The smaller end.
    pub a: IntPoint<I>,
    /// The larger end.
    pub b: IntPoint<I>,
}

/// Returns how two points compare: by x, then by y.
pub fn compare_points<I: IntNumber>(p: IntPoint<I>, q: IntPoint<I>) -> Ordering
    ensures { result ≡ point_cmp (plain_point I.whole p) (plain_point I.whole q) }
{
    match p.x.compare(q.x) {
        Ordering::Equal => p.y.compare(q.y),
        other => other,
    }
}

/// Returns whether p is smaller than q: by x, then by y.
pub fn is_before<I: IntNumber>(p: IntPoint<I>, q: IntPoint<I>) -> bool
    ensures { result ≡ point_lt (plain_point I.whole p) (plain_point I.whole q) }
{
    p.x.compare(q.x).is_lt() || p.x.compare(q.x).is_eq() && p.y.compare(q.y).is_lt()
}

/// Returns the edge between two points in range, or nothing where the points are equal.
pub fn edge_between<I: IntNumber>(from: IntPoint<I>, to: IntPoint<I>) -> Option<IntEdge<I>>
    requires from { InRange I.limit (plain_point I.whole from) }
    requires to { InRange I.limit (plain_point I.whole to) }
    ensures long { IfSome result (λ e. IsLongEdge I.limit (plain_edge I.whole e)) }
    ensures edge { option_to_list (option_map (plain_edge I.whole) result)
        ≡ edges_between (plain_point I.whole from) (plain_point I.whole to) }
{
    match compare_points(from, to) {
        Ordering::Equal => None,
        Ordering::Less => Some(IntEdge { a: from, b: to }),
        Ordering::Greater => Some(IntEdge { a: to, b: from }),
    }
}
