//! Cutting: each edge becomes the pieces of a chain through whole points. These are its meeting points, or the hot
//! points whose pixels it meets.

ghost use Rattle.std.specs.Prelude.{◌≡◌, ◌⊎◌, ◌↔◌, ◌^◌, ◌<◌, ◌≤◌, ◌++◌, ◌∷◌, [], IsTrue};
ghost use Rattle.std.specs.Prelude.{false, map, IfOk, IfErr, OnOk, OnErr, IsErrOf};
ghost use Rattle.std.specs.Prelude.{MatchBool, option_map, option_to_list, cond, int_le, int_lt};
ghost use Rattle.std.specs.Ordering.{is_lt};
ghost use Rattle.overlay_geom.specs.Counts.{weight_of_counts};
ghost use Rattle.overlay_geom.specs.Edges.{ends_of, weight};
ghost use Rattle.overlay_geom.specs.Plane.{steps_between, steps_through};
ghost use Rattle.overlay_geom.specs.Points.{plain_point, plain_points, InRange, AllInRange};
ghost use Rattle.overlay_plane.specs.Carried.{edges_in};
ghost use Rattle.overlay_plane.specs.CutPoints.{comes_first, cut_points};
ghost use Rattle.overlay_plane.specs.Cutting.{piece_along};
ghost use Rattle.overlay_plane.specs.DerivedData.{AreGiven, GivesPiece};
ghost use Rattle.overlay_plane.specs.InOrder.{in_order};
ghost use Rattle.overlay_plane.specs.Meetings.{MeetInWholePoints};
ghost use Rattle.overlay_order.specs.Content.{plain_edge, plain_edges, carried_edge, carried_edges};
ghost use Rattle.overlay_order.specs.Content.{IsHeld, IsContent, IsAscending};
ghost use Rattle.overlay_parts.specs.PartedContents.{covered};
ghost use Rattle.overlay_parts.specs.Stores.{IsStoreReached};
ghost use Rattle.overlay_arrange.specs.Cut.{AddsGiven, LeadingPoints, StaysWhole};
ghost use Rattle.overlay_arrange.specs.Meetings.{plain_meetings, AreByPlace, AreInRange, AreLedAlong, AreMeetings};
ghost use Rattle.overlay_arrange.specs.Meetings.{ArePointsAt};
ghost use Rattle.overlay_arrange.specs.Parting.{cover_weight, AreJoinedParts};

use crate::batches::{Pieces, hidden_at};
use crate::content::Content;
use crate::crossing::is_end_of;
use crate::limits::first_limit;
use crate::meetings::{Meeting, run_at, sort_meetings};
use crate::whole::are_whole;
use overlay_geom::error::OverlayError;
use overlay_geom::number::IntNumber;
use overlay_geom::point::IntPoint;
use overlay_order::count::EdgeCount;
use overlay_order::edge::{CountedEdge, compare_points};
use std::alloc::{AllocError, Allocator};
use std::cmp::Ordering;
use std::mem;

impl<I: IntNumber, C: EdgeCount, A: Allocator> Content<I, C, A> {
    /// Cuts each edge into the pieces of the chain through its meeting points, and may join equal pieces. Returns
    /// whether a point was rounded, and the edges before the cut. If no point was rounded, the edges met only in whole
    /// points or overlapped. The edges ascend. The meetings are theirs, and are dropped. A refusal leaves the content
    /// as it was.
    #[tactic(auto, using(overlay_parts::proofs::ReachedStores::never_written))]
    pub(crate) fn cut_at(
        &mut self,
        meetings: Vec<Meeting<I>, A>,
        hidden: &[u32],
        store: &mut C::Store,
    ) -> Result<(bool, Self), OverlayError>
    where
        A: Clone,
        requires ascending { IsAscending (edges_in self.old) }
        requires meetings { AreMeetings (edges_in self.old) (plain_meetings I.whole meetings.items) }
        ensures ok { OnOk result (AreJoinedParts C.merges C.splits C.reverses
            (cut_points (edges_in self.old)) (covered self.old hidden.now) self.new) }
        ensures rounded { IfOk result (λ cut.
            (cut.0 ≡ false) ↔ MeetInWholePoints (edges_in self.old)) }
        ensures before { IfOk result (λ cut. edges_in cut.1 ≡ edges_in self.old) }
        ensures err { OnErr result (self.new ≡ self.old) }
        ensures store { IsStoreReached C.writes store.old store.new }
        ensures too_many { IsErrOf result OverlayError.TooManyEdges
            → 2 ^ 31 ≤ cover_weight (cut_points (edges_in self.old)) (covered self.old hidden.now) }
        ensures only { IfErr result (λ e. (e ≡ OverlayError.Memory) ⊎ (e ≡ OverlayError.TooManyEdges)) }
    {
        let is_whole = are_whole(self.edges(), &meetings);
        let before = self.cut_through(meetings, hidden, store)?;
        Ok((!is_whole, before))
    }

    /// Cuts each edge into the pieces of the chain through its meetings. Returns the edges before the cut. The meetings
    /// are those of the edges. They are dropped. The edges ascend. A refusal leaves the content as it was.
    #[tactic(auto, using(overlay_parts::proofs::ReachedStores::never_written))]
    pub(crate) fn cut_through(
        &mut self,
        mut meetings: Vec<Meeting<I>, A>,
        hidden: &[u32],
        store: &mut C::Store,
    ) -> Result<Self, OverlayError>
    where
        A: Clone,
        requires ascending { IsAscending (edges_in self.old) }
        requires meetings { AreMeetings (edges_in self.old) (plain_meetings I.whole meetings.items) }
        ensures ok { OnOk result (AreJoinedParts C.merges C.splits C.reverses
            (cut_points (edges_in self.old)) (covered self.old hidden.now) self.new) }
        ensures before { IfOk result (λ before. edges_in before ≡ edges_in self.old) }
        ensures err { OnErr result (self.new ≡ self.old) }
        ensures store { IsStoreReached C.writes store.old store.new }
        ensures too_many { IsErrOf result OverlayError.TooManyEdges
            → 2 ^ 31 ≤ cover_weight (cut_points (edges_in self.old)) (covered self.old hidden.now) }
        ensures only { IfErr result (λ e. (e ≡ OverlayError.Memory) ⊎ (e ≡ OverlayError.TooManyEdges)) }
    {
        sort_meetings(&mut meetings, self.edges())?;
        let alloc = self.allocator().clone()?;
        let pieces = cut_edges(alloc, self.edges(), &meetings, hidden, store)?;
        let before = mem::replace(self, pieces);
        Ok(before)
    }
}

/// Returns the pieces of all edges, each along the chain through its meetings. Equal pieces may be joined. The meetings
/// are sorted by their places.
#[tactic(auto, using(overlay_parts::proofs::ReachedStores::never_written))]
fn cut_edges<I: IntNumber, C: EdgeCount, A: Allocator + Clone>(
    alloc: A,
    edges: &[CountedEdge<I, C>],
    meetings: &[Meeting<I>],
    hidden: &[u32],
    store: &mut C::Store,
) -> Result<Content<I, C, A>, OverlayError>
    requires content { IsContent I.limit (plain_edges I.whole C.counts edges.now) }
    requires in_range { AreInRange I.limit (plain_meetings I.whole meetings.now) }
    requires order { AreByPlace (plain_meetings I.whole meetings.now) }
    ensures ok { let es = plain_edges I.whole C.counts edges.now in
        IfOk result (λ cut. (points : LeadingPoints) → AreLedAlong es (plain_meetings I.whole meetings.now) points
        → AreJoinedParts C.merges C.splits C.reverses points
        (covered (carried_edges I.whole C.counts edges.now) hidden.now) cut) }
    ensures store { IsStoreReached C.writes store.old store.new }
    ensures too_many { let es = plain_edges I.whole C.counts edges.now in
        IsErrOf result OverlayError.TooManyEdges
        → (points : LeadingPoints) → AreLedAlong es (plain_meetings I.whole meetings.now) points
        → 2 ^ 31 ≤ cover_weight points (covered (carried_edges I.whole C.counts edges.now) hidden.now) }
    ensures only { IfErr result (λ e. (e ≡ OverlayError.Memory) ⊎ (e ≡ OverlayError.TooManyEdges)) }
{
    // (each meeting makes one piece more at most)
    let room = edges.len().saturating_add(meetings.len());
    let mut pieces = Pieces::new(alloc.clone()?, room, first_limit(edges.len()))?;
    let mut points = Vec::new(alloc);
    let mut near = 0;
    for (i, e) in edges.iter().enumerate() {
        put_points_at(&mut points, meetings, &mut near, i, e)?;
        pieces.add(e, &points, hidden_at(hidden, i), store)?;
    }
    Ok(pieces.content)
}

/// Adds the pieces of an edge along the chain from its smaller to its larger end through the points.
pub(crate) fn push_pieces<I: IntNumber, C: EdgeCount, A: Allocator>(
    pieces: &mut Content<I, C, A>,
    e: &CountedEdge<I, C>,
    points: &[IntPoint<I>],
    store: &mut C::Store,
) -> Result<(), OverlayError>
    requires held { IsHeld I.limit (plain_edge I.whole C.counts e.now) }
    requires light { weight_of_counts (C.counts e.now.count) < 2 ^ 31 }
    requires points { AllInRange I.limit (plain_points I.whole points.now) }
    ensures ok { let whole = plain_edge I.whole C.counts e.now in
        OnOk result (edges_in pieces.new ≡ edges_in pieces.old
        ++ map (piece_along whole) (steps_through whole.a (plain_points I.whole points.now ++ whole.b ∷ []))) }
    ensures carried { let whole = plain_edge I.whole C.counts e.now in
        OnOk result (AddsGiven (GivesPiece C.splits C.reverses
        (StaysWhole whole (plain_points I.whole points.now)) (carried_edge I.whole C.counts e.now))
        (steps_through whole.a (plain_points I.whole points.now ++ whole.b ∷ [])) pieces.old pieces.new) }
    ensures store { IsStoreReached C.writes store.old store.new }
    ensures too_many { let whole = plain_edge I.whole C.counts e.now in
        IsErrOf result OverlayError.TooManyEdges → 2 ^ 31 ≤ weight (edges_in pieces.old
        ++ map (piece_along whole) (steps_through whole.a (plain_points I.whole points.now ++ whole.b ∷ []))) }
    ensures only { IfErr result (λ e. (e ≡ OverlayError.Memory) ⊎ (e ≡ OverlayError.TooManyEdges)) }
{
    let is_whole = stays_whole(e, points);
    let cut = CutEdge { e: *e, is_whole };
    let mut from = e.a;
    for to in points {
        push_piece(pieces, &cut, from, *to, store)?;
        from = *to;
    }
    push_piece(pieces, &cut, from, e.b, store)
}

/// An edge that is led along a chain, and whether it stays whole: the chain is the edge itself.
#[derive(Clone, Copy)]
struct CutEdge<I, C> {
    e: CountedEdge<I, C>,
    is_whole: bool,
}

/// Adds the piece of the edge from one point of its chain to the next, if they differ.
fn push_piece<I: IntNumber, C: EdgeCount, A: Allocator>(
    pieces: &mut Content<I, C, A>,
    cut: &CutEdge<I, C>,
    from: IntPoint<I>,
    to: IntPoint<I>,
    store: &mut C::Store,
) -> Result<(), OverlayError>
    requires light { weight_of_counts (C.counts cut.now.e.count) < 2 ^ 31 }
    requires from { InRange I.limit (plain_point I.whole from) }
    requires to { InRange I.limit (plain_point I.whole to) }
    ensures ok { OnOk result (edges_in pieces.new
        ≡ edges_in pieces.old ++ map (piece_along (plain_edge I.whole C.counts cut.now.e))
        (steps_between (plain_point I.whole from) (plain_point I.whole to))) }
    ensures carried { OnOk result (AddsGiven
        (GivesPiece C.splits C.reverses (IsTrue cut.now.is_whole) (carried_edge I.whole C.counts cut.now.e))
        (steps_between (plain_point I.whole from) (plain_point I.whole to)) pieces.old pieces.new) }
    ensures store { IsStoreReached C.writes store.old store.new }
    ensures too_many { IsErrOf result OverlayError.TooManyEdges → 2 ^ 31 ≤ weight (edges_in pieces.old
        ++ map (piece_along (plain_edge I.whole C.counts cut.now.e))
        (steps_between (plain_point I.whole from) (plain_point I.whole to))) }
    ensures only { IfErr result (λ e. (e ≡ OverlayError.Memory) ⊎ (e ≡ OverlayError.TooManyEdges)) }
{
    if let Some(piece) = piece(cut, from, to, store) {
        pieces.push(piece)?;
    }
    Ok(())
}

/// Returns the piece of the edge from one point of its chain to the next, if they differ. It carries the edge's value,
/// or a split of it where the edge is cut, reversed where the piece runs against the edge.
fn piece<I: IntNumber, C: EdgeCount>(
    cut: &CutEdge<I, C>,
    from: IntPoint<I>,
    to: IntPoint<I>,
    store: &mut C::Store,
) -> Option<CountedEdge<I, C>>
    requires light { weight_of_counts (C.counts cut.now.e.count) < 2 ^ 31 }
    ensures counts { option_to_list (option_map (plain_edge I.whole C.counts) result)
        ≡ map (piece_along (plain_edge I.whole C.counts cut.now.e))
        (steps_between (plain_point I.whole from) (plain_point I.whole to)) }
    ensures carried { AreGiven
        (GivesPiece C.splits C.reverses (IsTrue cut.now.is_whole) (carried_edge I.whole C.counts cut.now.e))
        (steps_between (plain_point I.whole from) (plain_point I.whole to))
        (option_to_list (option_map (carried_edge I.whole C.counts) result)) }
    ensures store { IsStoreReached C.writes store.old store.new }
{
    match compare_points(from, to) {
        Ordering::Equal => None,
        Ordering::Less => Some(CountedEdge {
            a: from,
            b: to,
            count: part_of(cut.e.count, cut.is_whole, store),
        }),
        Ordering::Greater => Some(CountedEdge {
            a: to,
            b: from,
            count: part_of(cut.e.count, cut.is_whole, store).reversed(store),
        }),
    }
}

/// Returns the value of a piece that runs along its edge: the edge's own value where the edge stays whole.
fn part_of<C: EdgeCount>(count: C, is_whole: bool, store: &mut C::Store) -> C
    ensures counts { C.counts result ≡ C.counts count }
    ensures splits { MatchBool is_whole (result ≡ count) (C.splits count result) }
    ensures writes { MatchBool is_whole (store.new ≡ store.old) (C.writes store.old store.new) }
{
    if is_whole { count } else { count.split(store) }
}

/// Returns whether the chain through the points is the edge itself: each point is an end of it.
fn stays_whole<I: IntNumber, C: EdgeCount>(e: &CountedEdge<I, C>, points: &[IntPoint<I>]) -> bool
    ensures { IsTrue result ↔ StaysWhole (plain_edge I.whole C.counts e.now) (plain_points I.whole points.now) }
{
    for v in points {
        if !is_end_of(e, *v) {
            return false;
        }
    }
    true
}

/// Replaces the list by the points of the meetings of e, the edge at place i, in their order along it. The meetings are
/// sorted by their places. It looks for them at the place `near` first, and leaves there the place behind them.
fn put_points_at<I: IntNumber, C: EdgeCount, A: Allocator>(
    points: &mut Vec<IntPoint<I>, A>,
    meetings: &[Meeting<I>],
    near: &mut usize,
    i: usize,
    e: &CountedEdge<I, C>,
) -> Result<(), AllocError>
    requires { AreByPlace (plain_meetings I.whole meetings.now) }
    ensures ok { OnOk result (ArePointsAt (plain_meetings I.whole meetings.now) i
        (ends_of (plain_edge I.whole C.counts e.now)) (plain_points I.whole points.new.items)) }
{
    let (low, high) = run_at(meetings, *near, i);
    *near = high;
    put_points(points, &meetings[low..high])?;
    sort_along(points, e)?;
    Ok(())
}

/// Replaces the list by the points of the meetings.
fn put_points<I: IntNumber, A: Allocator>(
    points: &mut Vec<IntPoint<I>, A>,
    meetings: &[Meeting<I>],
) -> Result<(), AllocError>
    ensures ok { OnOk result (plain_points I.whole points.new.items
        ≡ map (λ m. m.point) (plain_meetings I.whole meetings.now)) }
{
    points.clear();
    for m in meetings {
        points.push(m.point)?;
    }
    Ok(())
}

/// Sorts the points by their order along the edge.
pub(crate) fn sort_along<I: IntNumber, C: EdgeCount, A: Allocator>(
    points: &mut Vec<IntPoint<I>, A>,
    e: &CountedEdge<I, C>,
) -> Result<(), AllocError>
    ensures ok { OnOk result (plain_points I.whole points.new.items
        ≡ in_order (comes_first (ends_of (plain_edge I.whole C.counts e.now)))
        (plain_points I.whole points.old.items)) }
{
    points.sort_by(|v, w| compare_along(e, *v, *w))?;
    Ok(())
}

/// Compares two points along the edge: by x, then by y upwards or downwards, as the edge leads.
fn compare_along<I: IntNumber, C: EdgeCount>(
    e: &CountedEdge<I, C>,
    v: IntPoint<I>,
    w: IntPoint<I>,
) -> Ordering
    ensures { is_lt result ≡ comes_first (ends_of (plain_edge I.whole C.counts e.now)) (plain_point I.whole v)
        (plain_point I.whole w) }
{
    match v.x.compare(w.x) {
        Ordering::Equal => compare_heights(e, v.y, w.y),
        other => other,
    }
}

/// Compares two heights, upwards or downwards as the edge leads.
fn compare_heights<I: IntNumber, C: EdgeCount>(e: &CountedEdge<I, C>, y: I, z: I) -> Ordering
    ensures { is_lt result ≡ cond (int_le (I.whole e.now.a.y) (I.whole e.now.b.y))
        (int_lt (I.whole y) (I.whole z)) (int_lt (I.whole z) (I.whole y)) }
{
    if e.a.y.compare(e.b.y).is_le() {
        y.compare(z)
    } else {
        z.compare(y)
    }
}
