//! Whether edges are balanced, told without memory.

ghost use Rattle.std.specs.Prelude.{◌≡◌, ◌↔◌, ◌^◌, ◌+ℤ◌, ◌-ℤ◌, cond, pos, IsTrue};
ghost use Rattle.overlay_geom.specs.Edges.{subj_of, clip_of};
ghost use Rattle.overlay_geom.specs.Numbers.{Within};
ghost use Rattle.overlay_geom.specs.Plane.{point_eq};
ghost use Rattle.overlay_geom.specs.Points.{plain_point};
ghost use Rattle.overlay_plane.specs.Balance.{HasBalancedCounts};
ghost use Rattle.overlay_order.specs.Content.{plain_edge, plain_edges, IsContent};
ghost use Rattle.overlay_vector.specs.Entering.{entering, entering_along, IsBalancedAt};

use overlay_geom::number::IntNumber;
use overlay_geom::point::IntPoint;
use overlay_order::count::EdgeCount;
use overlay_order::edge::{CountedEdge, compare_points};

/// How many steps enter a point, less how many leave it.
#[derive(Clone, Copy)]
struct Sums {
    // of the subject
    subj: i64,
    // of the clip
    clip: i64,
}

/// Returns whether the counts of the edges are balanced: as many steps of the subject enter each point as leave
/// it, and as many of the clip.
pub(crate) fn is_balanced<I: IntNumber, C: EdgeCount>(edges: &[CountedEdge<I, C>]) -> bool
    requires { IsContent I.limit (plain_edges I.whole C.counts edges.now) }
    ensures { IsTrue result ↔ HasBalancedCounts (plain_edges I.whole C.counts edges.now) }
{
    for edge in edges {
        if !is_balanced_at_ends(edges, edge) {
            return false;
        }
    }
    true
}

/// Returns whether as many steps enter each end of an edge as leave it.
fn is_balanced_at_ends<I: IntNumber, C: EdgeCount>(
    edges: &[CountedEdge<I, C>],
    edge: &CountedEdge<I, C>,
) -> bool
    requires { IsContent I.limit (plain_edges I.whole C.counts edges.now) }
    ensures { let es = plain_edges I.whole C.counts edges.now in
        IsTrue result ↔ IsBalancedAt es (plain_point I.whole edge.now.a)
        × IsBalancedAt es (plain_point I.whole edge.now.b) }
{
    is_balanced_at(edges, edge.a) && is_balanced_at(edges, edge.b)
}

/// Returns whether as many steps enter the point as leave it.
fn is_balanced_at<I: IntNumber, C: EdgeCount>(
    edges: &[CountedEdge<I, C>],
    point: IntPoint<I>,
) -> bool
    requires { IsContent I.limit (plain_edges I.whole C.counts edges.now) }
    ensures { IsTrue result
        ↔ IsBalancedAt (plain_edges I.whole C.counts edges.now) (plain_point I.whole point) }
{
    are_zero(sums_at(edges, point))
}

/// Returns whether both sums are 0.
fn are_zero(sums: Sums) -> bool
    ensures { IsTrue result ↔ (sums.subj ≡ pos 0) × (sums.clip ≡ pos 0) }
{
    sums.subj == 0 && sums.clip == 0
}

/// Returns how many steps enter the point, less how many leave it.
fn sums_at<I: IntNumber, C: EdgeCount>(edges: &[CountedEdge<I, C>], point: IntPoint<I>) -> Sums
    requires { IsContent I.limit (plain_edges I.whole C.counts edges.now) }
    ensures subj { result.subj
        ≡ entering subj_of (plain_edges I.whole C.counts edges.now) (plain_point I.whole point) }
    ensures clip { result.clip
        ≡ entering clip_of (plain_edges I.whole C.counts edges.now) (plain_point I.whole point) }
{
    let mut sums = Sums { subj: 0, clip: 0 };
    for edge in edges {
        sums = with_edge(sums, edge, point);
    }
    sums
}

/// The sums with one edge more.
fn with_edge<I: IntNumber, C: EdgeCount>(
    sums: Sums,
    edge: &CountedEdge<I, C>,
    point: IntPoint<I>,
) -> Sums
    requires subj { Within (2 ^ 31) sums.subj }
    requires clip { Within (2 ^ 31) sums.clip }
    ensures subj { result.subj ≡ sums.subj
        +ℤ entering_along subj_of (plain_point I.whole point) (plain_edge I.whole C.counts edge.now) }
    ensures clip { result.clip ≡ sums.clip
        +ℤ entering_along clip_of (plain_point I.whole point) (plain_edge I.whole C.counts edge.now) }
{
    Sums {
        subj: sums.subj + along(edge.count.subj(), edge, point),
        clip: sums.clip + along(edge.count.clip(), edge, point),
    }
}

/// Returns how many of `count` steps along the edge enter the point, less how many leave it.
fn along<I: IntNumber, C: EdgeCount>(
    count: i32,
    edge: &CountedEdge<I, C>,
    point: IntPoint<I>,
) -> i64
    ensures value { result
        ≡ cond (point_eq (plain_point I.whole edge.now.b) (plain_point I.whole point)) count (pos 0)
        -ℤ cond (point_eq (plain_point I.whole edge.now.a) (plain_point I.whole point)) count (pos 0) }
    ensures small { Within (2 ^ 32) result }
{
    at(count, edge.b, point) - at(count, edge.a, point)
}

/// The count where the end is at the point, and 0 elsewhere.
fn at<I: IntNumber>(count: i32, end: IntPoint<I>, point: IntPoint<I>) -> i64
    ensures value { result ≡ cond (point_eq (plain_point I.whole end) (plain_point I.whole point)) count (pos 0) }
    ensures small { Within (2 ^ 31) result }
{
    if compare_points(end, point).is_eq() {
        i64::from(count)
    } else {
        0
    }
}
