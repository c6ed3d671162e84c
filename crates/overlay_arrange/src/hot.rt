//! The hot points of a list of edges: their ends, and the whole points nearest to their meeting points.

ghost use Rattle.std.specs.Prelude.{◌≡◌, [], ◌∷◌, ◌++◌, map, IfOk, OnOk};
ghost use Rattle.std.specs.List.Sorted.{IsPermutation, IsSorted};
ghost use Rattle.overlay_geom.specs.Points.{plain_point, plain_points};
ghost use Rattle.overlay_geom.specs.Resolved.{point_cmp};
ghost use Rattle.overlay_order.specs.Content.{plain_edges};
ghost use Rattle.overlay_arrange.specs.HotPoints.{AreHotPoints, ArePointsAscending, HaveSameMembers};
ghost use Rattle.overlay_arrange.specs.Meetings.{plain_meetings, AreMeetings};

use crate::meetings::Meeting;
use overlay_geom::edge_pair::is_same;
use overlay_geom::number::IntNumber;
use overlay_geom::point::IntPoint;
use overlay_order::count::EdgeCount;
use overlay_order::edge::{CountedEdge, compare_points};
use overlay_order::sort_points::order_by_points;
use overlay_order::sort_runs::sort_neighbours;
use std::alloc::{AllocError, Allocator};
use std::cmp::Ordering;

/// Returns the hot points of the edges, each once, by x and then by y. The meetings are those of all edges.
pub(crate) fn hot_points<I: IntNumber, C: EdgeCount, A: Allocator + Clone>(
    alloc: A,
    edges: &[CountedEdge<I, C>],
    meetings: &[Meeting<I>],
) -> Result<Vec<IntPoint<I>, A>, AllocError>
    requires { AreMeetings (plain_edges I.whole C.counts edges.now) (plain_meetings I.whole meetings.now) }
    ensures ok { IfOk result (λ points. AreHotPoints
        (plain_edges I.whole C.counts edges.now) (plain_points I.whole points.items)) }
{
    let most = edges.len().saturating_mul(2).saturating_add(meetings.len());
    let mut points = Vec::with_capacity(alloc, most)?;
    push_starts(&mut points, edges)?;
    push_ends(&mut points, edges)?;
    push_points(&mut points, meetings)?;
    sort_points(&mut points)?;
    Ok(points)
}

/// Adds the smaller ends of the edges.
fn push_starts<I: IntNumber, C: EdgeCount, A: Allocator>(
    points: &mut Vec<IntPoint<I>, A>,
    edges: &[CountedEdge<I, C>],
) -> Result<(), AllocError>
    ensures ok { OnOk result (plain_points I.whole points.new.items ≡ plain_points I.whole points.old.items
        ++ map (λ e. e.a) (plain_edges I.whole C.counts edges.now)) }
{
    for i in 0..edges.len() {
        points.push(edges[i].a)?;
    }
    Ok(())
}

/// Adds the larger ends of the edges.
fn push_ends<I: IntNumber, C: EdgeCount, A: Allocator>(
    points: &mut Vec<IntPoint<I>, A>,
    edges: &[CountedEdge<I, C>],
) -> Result<(), AllocError>
    ensures ok { OnOk result (plain_points I.whole points.new.items ≡ plain_points I.whole points.old.items
        ++ map (λ e. e.b) (plain_edges I.whole C.counts edges.now)) }
{
    for i in 0..edges.len() {
        points.push(edges[i].b)?;
    }
    Ok(())
}

/// Adds the points of the meetings. Edges that cross give a point twice, one meeting after the other, and once is
/// enough.
fn push_points<I: IntNumber, A: Allocator>(
    points: &mut Vec<IntPoint<I>, A>,
    meetings: &[Meeting<I>],
) -> Result<(), AllocError>
    ensures ok { OnOk result (HaveSameMembers (plain_points I.whole points.old.items
        ++ map (λ m. m.point) (plain_meetings I.whole meetings.now)) (plain_points I.whole points.new.items)) }
{
    for i in 0..meetings.len() {
        push_once(points, meetings[i].point)?;
    }
    Ok(())
}

/// Adds the point, unless it is the last one already.
fn push_once<I: IntNumber, A: Allocator>(
    points: &mut Vec<IntPoint<I>, A>,
    v: IntPoint<I>,
) -> Result<(), AllocError>
    ensures ok { OnOk result (HaveSameMembers
        (plain_points I.whole points.old.items ++ plain_point I.whole v ∷ []) (plain_points I.whole points.new.items)) }
{
    let count = points.len();
    if count == 0 || !is_same(points[count - 1], v) {
        points.push(v)?;
    }
    Ok(())
}

/// Sorts the points by x and then by y, and drops repeated points.
fn sort_points<I: IntNumber, A: Allocator + Clone>(
    points: &mut Vec<IntPoint<I>, A>,
) -> Result<(), AllocError>
    ensures members { OnOk result (HaveSameMembers
        (plain_points I.whole points.old.items) (plain_points I.whole points.new.items)) }
    ensures ascending { OnOk result (ArePointsAscending (plain_points I.whole points.new.items)) }
{
    put_in_order(points)?;
    points.dedup_by(|v, w| is_same(*v, *w));
    Ok(())
}

/// Sorts the points by x and then by y. Many points are put in order by digits first, so that few have to be moved.
fn put_in_order<I: IntNumber, A: Allocator + Clone>(
    points: &mut Vec<IntPoint<I>, A>,
) -> Result<(), AllocError>
    ensures permutation { IsPermutation points.old.items points.new.items }
    ensures order { OnOk result (IsSorted
        (λ v w. point_cmp (plain_point I.whole v) (plain_point I.whole w)) points.new.items) }
{
    order_by_points(points, |v| *v)?;
    if sort_neighbours(points, |v, w| compare_neighbours(v, w)) {
        return Ok(());
    }
    points.sort_by(|v, w| compare_points(*v, *w))?;
    Ok(())
}

/// Compares two points as `compare_points` does. It is faster where points side by side in a list differ in x, or agree
/// there.
fn compare_neighbours<I: IntNumber>(v: &IntPoint<I>, w: &IntPoint<I>) -> Ordering
    ensures { result ≡ point_cmp (plain_point I.whole v.now) (plain_point I.whole w.now) }
{
    match v.x.compare(w.x) {
        Ordering::Equal => v.y.compare(w.y),
        other => other,
    }
}
