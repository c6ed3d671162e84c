//! The whole points through which snap rounding leads the edges of a list: the hot points whose pixels they meet.

ghost use Rattle.std.specs.Prelude.{◌≡◌, ◌⊎◌, ◌+◌, ◌^◌, ◌<◌, ◌≤◌, length, IsTrue, false};
ghost use Rattle.std.specs.Prelude.{slice_range, IfOk, IfErr, IsErrOf, OnOk};
ghost use Rattle.overlay_geom.specs.Points.{plain_points};
ghost use Rattle.overlay_plane.specs.SnapPoints.{snap_points};
ghost use Rattle.overlay_order.specs.Content.{carried_edges, plain_edge, plain_edges, IsContent, IsHeld};
ghost use Rattle.overlay_pairs.specs.PointStrips.{AreStripsOf};
ghost use Rattle.overlay_parts.specs.PartedContents.{covered};
ghost use Rattle.overlay_parts.specs.Stores.{IsStoreReached};
ghost use Rattle.overlay_arrange.specs.HotPoints.{AreHotPoints, AreLeftBefore, AreMetAmong, AreMetInside};
ghost use Rattle.overlay_arrange.specs.HotPoints.{ArePointsAscending, AreRightFrom, AreStripsIfAny};
ghost use Rattle.overlay_arrange.specs.Parting.{cover_weight, AreJoinedParts};

use crate::batches::{Pieces, hidden_at};
use crate::content::Content;
use crate::course::course_of;
use crate::cut::sort_along;
use crate::pixel::meets_pixel_inside;
use crate::pixel_runs::{Strip, push_run};
use overlay_geom::error::OverlayError;
use overlay_geom::number::IntNumber;
use overlay_geom::point::IntPoint;
use overlay_order::count::EdgeCount;
use overlay_order::edge::CountedEdge;
use overlay_pairs::extents::is_less;
use overlay_pairs::near::on_by;
use overlay_pairs::strips::{SAMPLES, points_by_strips, strip_width};
use std::alloc::{AllocError, Allocator};

// Greatest number of points in the span of an edge that are tested one by one; more are searched by strips.
const MOST_IN_SPAN: usize = 16;
// Least number of pieces from which on equal ones are joined before all edges are led.
const LEAST_PIECES: usize = 65536;
// Number of pieces for each hot point from which on equal ones are joined. Different pieces meet in ends alone, so that
// there are fewer than three for each point.
const PIECES_OF_A_POINT: usize = 6;

/// Returns the pieces of all edges, each along the chain through the hot points whose pixels it meets. Equal pieces may
/// be joined.
#[tactic(auto, using(overlay_parts::proofs::ReachedStores::never_written))]
pub(crate) fn snap_edges<I: IntNumber, C: EdgeCount, A: Allocator + Clone>(
    alloc: A,
    edges: &[CountedEdge<I, C>],
    hot: &[IntPoint<I>],
    hidden: &[u32],
    store: &mut C::Store,
) -> Result<Content<I, C, A>, OverlayError>
    requires content { IsContent I.limit (plain_edges I.whole C.counts edges.now) }
    requires hot { AreHotPoints (plain_edges I.whole C.counts edges.now) (plain_points I.whole hot.now) }
    ensures ok { IfOk result (λ led. AreJoinedParts C.merges C.splits C.reverses
        (snap_points (plain_edges I.whole C.counts edges.now))
        (covered (carried_edges I.whole C.counts edges.now) hidden.now) led) }
    ensures store { IsStoreReached C.writes store.old store.new }
    ensures too_many { IsErrOf result OverlayError.TooManyEdges
        → 2 ^ 31 ≤ cover_weight (snap_points (plain_edges I.whole C.counts edges.now))
        (covered (carried_edges I.whole C.counts edges.now) hidden.now) }
    ensures only { IfErr result (λ e. (e ≡ OverlayError.Memory) ⊎ (e ≡ OverlayError.TooManyEdges)) }
{
    // (a quarter as wide as strips of edges)
    let width = strip_width(length_of_spans(edges, hot) / 16);
    let mut strips = Vec::new(alloc.clone()?);
    let mut points = Vec::new(alloc.clone()?);
    let room = hot.len().saturating_mul(2);
    let mut pieces = Pieces::new(alloc, room, many_pieces(hot.len()))?;
    let mut low = 0;
    // (strips do not pay for a few long spans)
    let mut spare = hot.len();
    for (i, e) in edges.iter().enumerate() {
        low = count_left_of(hot, e.a.x, low);
        take_near(&mut points, &mut strips, hot, width, e, low, spare)?;
        spare = spare_behind(spare, !strips.is_empty(), points.len());
        keep_met(&mut points, e);
        sort_along(&mut points, e)?;
        pieces.add(e, &points, hidden_at(hidden, i), store)?;
    }
    Ok(pieces.content)
}

// Returns the number of pieces of `hot` hot points from which on equal pieces are joined.
fn many_pieces(hot: usize) -> usize {
    hot.saturating_mul(PIECES_OF_A_POINT).max(LEAST_PIECES)
}

/// Returns how many points beyond `MOST_IN_SPAN` an edge may still test, all edges together, after one that tested
/// `count`. It is nothing once strips are made.
fn spare_behind(spare: usize, has_strips: bool, count: usize) -> usize {
    if has_strips {
        0
    } else {
        spare.saturating_sub(count.saturating_sub(MOST_IN_SPAN))
    }
}

/// Replaces the list by points among which those stand whose pixels the edge meets: all in its span, if there are at
/// most `MOST_IN_SPAN` and `spare` of them, or those that strips find. The first `low` points lie left of the edge.
fn take_near<I: IntNumber, C: EdgeCount, A: Allocator + Clone>(
    points: &mut Vec<IntPoint<I>, A>,
    strips: &mut Vec<IntPoint<I>, A>,
    hot: &[IntPoint<I>],
    width: usize,
    e: &CountedEdge<I, C>,
    low: usize,
    spare: usize,
) -> Result<(), AllocError>
    requires some { 0 < width }
    requires one { IsHeld I.limit (plain_edge I.whole C.counts e.now) }
    requires ascending { ArePointsAscending (plain_points I.whole hot.now) }
    requires strips { AreStripsIfAny (plain_points I.whole hot.now) width (plain_points I.whole strips.old.items) }
    requires left { AreLeftBefore (plain_points I.whole hot.now) (I.whole e.now.a.x) low }
    ensures ok { OnOk result (AreMetAmong (plain_points I.whole hot.now) (plain_edge I.whole C.counts e.now)
        (plain_points I.whole points.new.items)) }
    ensures strips { OnOk result
        (AreStripsIfAny (plain_points I.whole hot.now) width (plain_points I.whole strips.new.items)) }
{
    let high = place_up_to(hot, e.b.x, low, spare.saturating_add(MOST_IN_SPAN));
    if goes_on(hot, e.b.x, high) {
        make_strips(strips, hot, width)?;
        take_by_strips(points, hot, width, strips, e, low)
    } else {
        take_range(points, hot, low, high)
    }
}

/// Makes the strips of the points, unless they are made already.
fn make_strips<I: IntNumber, A: Allocator + Clone>(
    strips: &mut Vec<IntPoint<I>, A>,
    hot: &[IntPoint<I>],
    width: usize,
) -> Result<(), AllocError>
    requires some { 0 < width }
    requires strips { AreStripsIfAny (plain_points I.whole hot.now) width (plain_points I.whole strips.old.items) }
    ensures ok { OnOk result
        (AreStripsOf (plain_points I.whole hot.now) width (plain_points I.whole strips.new.items)) }
{
    if strips.is_empty() {
        *strips = points_by_strips(strips.allocator().clone()?, hot, width)?;
    }
    Ok(())
}

/// Returns the total number of points neither left nor right of an edge, over a sample of edges at equal distances. It
/// only serves as an estimate.
fn length_of_spans<I: IntNumber, C: EdgeCount>(
    edges: &[CountedEdge<I, C>],
    hot: &[IntPoint<I>],
) -> usize {
    let distance = (edges.len() / SAMPLES).saturating_add(1);
    let mut length: usize = 0;
    for k in 0..SAMPLES {
        let i = k.saturating_mul(distance);
        if i < edges.len() {
            length = length.saturating_add(length_of_span(hot, &edges[i]));
        }
    }
    length
}

/// Returns the number of points neither left nor right of the edge. It only serves as an estimate.
fn length_of_span<I: IntNumber, C: EdgeCount>(hot: &[IntPoint<I>], e: &CountedEdge<I, C>) -> usize {
    let low = hot.partition_point(|v| v.x.compare(e.a.x).is_lt());
    let high = hot.partition_point(|v| v.x.compare(e.b.x).is_le());
    high.saturating_sub(low)
}

/// Returns the number of points left of x, which come before all others. It is fast if `from` is little less.
fn count_left_of<I: IntNumber>(hot: &[IntPoint<I>], x: I, from: usize) -> usize
    requires { ArePointsAscending (plain_points I.whole hot.now) }
    ensures { AreLeftBefore (plain_points I.whole hot.now) (I.whole x) result }
{
    let mut at = if is_behind_left(hot, x, from) {
        from
    } else {
        0
    };
    while at < hot.len() && is_less(hot[at].x, x) {
        at += 1;
    }
    at
}

/// Returns whether there is a point before the rank, and it lies left of x.
fn is_behind_left<I: IntNumber>(hot: &[IntPoint<I>], x: I, rank: usize) -> bool
    requires { ArePointsAscending (plain_points I.whole hot.now) }
    ensures { IsTrue result → AreLeftBefore (plain_points I.whole hot.now) (I.whole x) rank }
{
    0 < rank && is_left(hot, x, rank - 1)
}

/// Returns whether there is a point at the rank, and it lies left of x.
fn is_left<I: IntNumber>(hot: &[IntPoint<I>], x: I, rank: usize) -> bool
    requires { ArePointsAscending (plain_points I.whole hot.now) }
    ensures { IsTrue result → AreLeftBefore (plain_points I.whole hot.now) (I.whole x) (rank + 1) }
{
    rank < hot.len() && is_less(hot[rank].x, x)
}

/// Returns the rank, from `from` on, of the first point that lies right of x, or a lower rank if `most` points come
/// before it.
fn place_up_to<I: IntNumber>(hot: &[IntPoint<I>], x: I, from: usize, most: usize) -> usize
    requires { from ≤ length hot.now }
    ensures ordered { from ≤ result }
    ensures within { result ≤ length hot.now }
{
    let end = on_by(from, most, hot.len());
    let mut at = from;
    while at < end && !is_less(x, hot[at].x) {
        at += 1;
    }
    at
}

/// Returns whether there is a point at the rank, and it does not lie right of x.
fn goes_on<I: IntNumber>(hot: &[IntPoint<I>], x: I, rank: usize) -> bool
    requires { ArePointsAscending (plain_points I.whole hot.now) }
    ensures within { IsTrue result → rank < length hot.now }
    ensures right { (result ≡ false) → AreRightFrom (plain_points I.whole hot.now) (I.whole x) rank }
{
    rank < hot.len() && !is_less(x, hot[rank].x)
}

/// Replaces the list by points among which those stand whose pixels the edge meets: in each strip of its span, those
/// near its line. The first `low` points lie left of the edge.
fn take_by_strips<I: IntNumber, C: EdgeCount, A: Allocator>(
    points: &mut Vec<IntPoint<I>, A>,
    hot: &[IntPoint<I>],
    width: usize,
    strips: &[IntPoint<I>],
    e: &CountedEdge<I, C>,
    low: usize,
) -> Result<(), AllocError>
    requires one { IsHeld I.limit (plain_edge I.whole C.counts e.now) }
    requires ascending { ArePointsAscending (plain_points I.whole hot.now) }
    requires strips { AreStripsOf (plain_points I.whole hot.now) width (plain_points I.whole strips.now) }
    requires left { AreLeftBefore (plain_points I.whole hot.now) (I.whole e.now.a.x) low }
    ensures ok { OnOk result (AreMetAmong (plain_points I.whole hot.now) (plain_edge I.whole C.counts e.now)
        (plain_points I.whole points.new.items)) }
{
    points.clear();
    let line = course_of(e);
    let mut at = low / width * width;
    while goes_on(hot, e.b.x, at) {
        let end = on_by(at, width, hot.len());
        let strip = Strip {
            points: strips,
            from: at,
            to: end,
            left: hot[at].x,
            right: hot[end - 1].x,
        };
        push_run(points, &strip, e, &line)?;
        at = end;
    }
    Ok(())
}

/// Replaces the list by the points of a range of ranks.
fn take_range<I: IntNumber, A: Allocator>(
    points: &mut Vec<IntPoint<I>, A>,
    hot: &[IntPoint<I>],
    low: usize,
    high: usize,
) -> Result<(), AllocError>
    requires ordered { low ≤ high }
    requires within { high ≤ length hot.now }
    ensures ok { OnOk result (plain_points I.whole points.new.items
        ≡ slice_range (plain_points I.whole hot.now) low high) }
{
    points.clear();
    points.extend_from_slice(&hot[low..high])?;
    Ok(())
}

/// Removes the points whose pixels the edge does not meet, and its own ends. No branch depends on the answers, which
/// nothing foretells.
fn keep_met<I: IntNumber, C: EdgeCount, A: Allocator>(
    points: &mut Vec<IntPoint<I>, A>,
    e: &CountedEdge<I, C>,
)
    requires { IsHeld I.limit (plain_edge I.whole C.counts e.now) }
    ensures { AreMetInside (plain_edge I.whole C.counts e.now) (plain_points I.whole points.old.items)
        (plain_points I.whole points.new.items) }
{
    // (what is computed of the edge alone is computed once, for a copy)
    let e = *e;
    points.retain(|v| meets_pixel_inside(&e, *v));
}
