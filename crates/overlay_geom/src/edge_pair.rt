//! Tests whether two edges meet in ends alone.

ghost use Rattle.std.specs.Prelude.{◌≡◌, ◌↔◌, pos, IsTrue};
ghost use Rattle.std.specs.Ordering.{int_cmp};
ghost use Rattle.overlay_geom.specs.Plane.{cross_at, point_eq};
ghost use Rattle.overlay_geom.specs.Placed.{do_overlap, share_end};
ghost use Rattle.overlay_geom.specs.Points.{plain_point, InRange};
ghost use Rattle.overlay_geom.specs.Resolved.{plain_edge, IsLongEdge, IsPlaced};
ghost use Rattle.overlay_geom.specs.Settled.{MeetInEnds};

use crate::edge::{IntEdge, compare_points};
use crate::number::{IntNumber, WideIntNumber};
use crate::point::IntPoint;
use crate::vector::cross_at;
use std::cmp::Ordering;

/// Position of an edge relative to the line through another edge.
#[derive(Clone, Copy)]
pub enum Place {
    /// Both ends lie on the line: the edges are collinear.
    Along,
    /// Both ends lie strictly on one side.
    Beside,
    /// The ends lie on different sides, or exactly one of them lies on the line.
    Across,
}

/// Returns whether every point that the two edges share is an end of both. For an edge and itself it returns false.
pub fn meet_in_ends<I: IntNumber>(e: IntEdge<I>, f: IntEdge<I>) -> bool
    requires one { IsLongEdge I.limit (plain_edge I.whole e) }
    requires other { IsLongEdge I.limit (plain_edge I.whole f) }
    ensures { IsTrue result ↔ MeetInEnds (plain_edge I.whole e) (plain_edge I.whole f) }
{
    match place_by(e, f) {
        Place::Along => !overlaps(e, f),
        Place::Beside => true,
        Place::Across => matches!(place_by(f, e), Place::Beside) || shares_end(e, f),
    }
}

/// Returns the position of `f` relative to the line through `e`.
pub fn place_by<I: IntNumber>(e: IntEdge<I>, f: IntEdge<I>) -> Place
    requires one { IsLongEdge I.limit (plain_edge I.whole e) }
    requires other { IsLongEdge I.limit (plain_edge I.whole f) }
    ensures { IsPlaced result (plain_edge I.whole e) (plain_edge I.whole f) }
{
    let a = turn(e.a, e.b, f.a);
    let b = turn(e.a, e.b, f.b);
    if a != b {
        Place::Across
    } else if a.is_eq() {
        Place::Along
    } else {
        Place::Beside
    }
}

// Returns the turn from the direction v to p into the direction v to q: `Greater` is left, `Less` is right, `Equal` is
// straight on or back.
fn turn<I: IntNumber>(v: IntPoint<I>, p: IntPoint<I>, q: IntPoint<I>) -> Ordering
    requires v { InRange I.limit (plain_point I.whole v) }
    requires p { InRange I.limit (plain_point I.whole p) }
    requires q { InRange I.limit (plain_point I.whole q) }
    ensures { let cross = cross_at (plain_point I.whole v) (plain_point I.whole p) (plain_point I.whole q) in
        result ≡ int_cmp cross (pos 0) }
{
    cross_at(v, p, q).sign()
}

// Returns whether two collinear edges share more than an end.
fn overlaps<I: IntNumber>(e: IntEdge<I>, f: IntEdge<I>) -> bool
    ensures { result ≡ do_overlap (plain_edge I.whole e) (plain_edge I.whole f) }
{
    compare_points(e.a, f.b).is_lt() && compare_points(f.a, e.b).is_lt()
}

// Returns whether the two edges share an end.
fn shares_end<I: IntNumber>(e: IntEdge<I>, f: IntEdge<I>) -> bool
    ensures { result ≡ share_end (plain_edge I.whole e) (plain_edge I.whole f) }
{
    is_same(e.a, f.a) || is_same(e.a, f.b) || is_same(e.b, f.a) || is_same(e.b, f.b)
}

/// Returns whether two points are equal.
pub fn is_same<I: IntNumber>(p: IntPoint<I>, q: IntPoint<I>) -> bool
    ensures { result ≡ point_eq (plain_point I.whole p) (plain_point I.whole q) }
{
    p.x.compare(q.x).is_eq() && p.y.compare(q.y).is_eq()
}
