//! Where edges meet: in ends alone, without crossing, or anywhere. Edges that do not cross meet in whole points.

ghost use Rattle.std.specs.Prelude.{◌≡◌, ◌<◌, ◌≤◌, true, false, None, length, All, IfOk, IfSome};
ghost use Rattle.overlay_geom.specs.Edges.{ends_of};
ghost use Rattle.overlay_order.specs.Content.{plain_edge, plain_edges, IsHeld, IsAscending};
ghost use Rattle.overlay_pairs.specs.Near.{AreNear};
ghost use Rattle.overlay_pairs.specs.Places.{AreSettledBefore};
ghost use Rattle.overlay_pairs.specs.Strips.{AreHeldStripsOf};
ghost use Rattle.overlay_given.specs.Crossing.{cross};
ghost use Rattle.overlay_given.specs.Heights.{LiesBetween, AreEdgeHeights, AreBlockHeights};
ghost use Rattle.overlay_given.specs.Uncrossed.{SomeCross, NoneCross, IsKindOf};
ghost use Rattle.overlay_given.specs.Uncrossed.{CrossesNoneBehind, CrossesSomeBehind, CrossesNoneOf, CrossesSomeOf};

use crate::crossing::cross;
use crate::heights::{
    BLOCK_SIZE, Heights, are_apart, block_end, block_heights, edge_heights, heights_of, overlap,
};
use overlay_geom::number::IntNumber;
use overlay_order::count::EdgeCount;
use overlay_order::edge::CountedEdge;
use overlay_pairs::changed::find_open;
use overlay_pairs::extents::is_less;
use overlay_pairs::settle::{count_settled, meet_in_ends};
use overlay_pairs::strips::{Strips, strips_of};
use std::alloc::{AllocError, Allocator};

// Greatest number of edges that are tested block by block. Where there may be more, strips are searched.
const MOST_BY_BLOCKS: usize = 256;
// Least number of neighbours whose heights are tested at once before they are tested one by one.
const LEAST_AT_ONCE: usize = 32;
// Greatest number of edges of a sample: the first of the list.
const MOST_SAMPLES: usize = 128;

/// Where the edges of a list meet.
#[derive(Debug, Clone, Copy, PartialEq, Eq)]
pub enum MeetingKind {
    /// Any two different edges share a point only where it is an end of both.
    InEnds,
    /// Some share others, but no two cross: they meet in ends of one or of both, or overlap.
    Uncrossed,
    /// Some two edges cross.
    Crossed,
}

/// Returns where the edges of an ascending list meet. Those that do not cross meet in whole points alone. The error is
/// that memory is refused.
pub fn meeting_kind<I: IntNumber, C: EdgeCount, A: Allocator + Clone>(
    alloc: A,
    edges: &[CountedEdge<I, C>],
) -> Result<MeetingKind, AllocError>
    requires held { All (IsHeld I.limit) (plain_edges I.whole C.counts edges.now) }
    requires ascending { IsAscending (plain_edges I.whole C.counts edges.now) }
    ensures ok { IfOk result (IsKindOf (plain_edges I.whole C.counts edges.now)) }
{
    let strips = strips_for(alloc.clone()?, edges)?;
    let count = count_settled(alloc.clone()?, edges, &strips, &None)?;
    if count == edges.len() {
        return Ok(MeetingKind::InEnds);
    }
    let none = none_cross(alloc, edges, &strips, count)?;
    if none {
        return Ok(MeetingKind::Uncrossed);
    }
    Ok(MeetingKind::Crossed)
}

// Makes the strips of the edges, where they may save time. They save none where few edges start over each edge, and one
// of the first meets another elsewhere than in ends.
fn strips_for<I: IntNumber, C: EdgeCount, A: Allocator + Clone>(
    alloc: A,
    edges: &[CountedEdge<I, C>],
) -> Result<Option<Strips<I, A>>, AllocError>
    requires held { All (IsHeld I.limit) (plain_edges I.whole C.counts edges.now) }
    requires ascending { IsAscending (plain_edges I.whole C.counts edges.now) }
    ensures ok { IfOk result (λ made.
        IfSome made (AreHeldStripsOf I.whole I.limit (plain_edges I.whole C.counts edges.now))) }
{
    if have_short_runs(edges) && meets_early(alloc.clone()?, edges)? {
        return Ok(None);
    }
    strips_of(alloc, edges)
}

// Returns whether after each edge few start left of its right end. The edges ascend.
fn have_short_runs<I: IntNumber, C: EdgeCount>(edges: &[CountedEdge<I, C>]) -> bool {
    for i in 0..edges.len() {
        if !has_short_run(edges, i) {
            return false;
        }
    }
    true
}

// Returns whether one of the first edges meets a later edge elsewhere than in ends. It only serves as an estimate: few
// edges are tested.
fn meets_early<I: IntNumber, C: EdgeCount, A: Allocator>(
    alloc: A,
    edges: &[CountedEdge<I, C>],
) -> Result<bool, AllocError>
    requires held { All (IsHeld I.limit) (plain_edges I.whole C.counts edges.now) }
    requires ascending { IsAscending (plain_edges I.whole C.counts edges.now) }
{
    let mut near = Vec::new(alloc);
    for i in 0..edges.len() / 32 {
        if MOST_SAMPLES <= i {
            return Ok(false);
        }
        find_open(&mut near, edges, &None, &None, i)?;
        if meets_some(edges, i, &near) {
            return Ok(true);
        }
    }
    Ok(false)
}

// Returns whether the edge at place i meets one of those at the places `near` elsewhere than in ends.
fn meets_some<I: IntNumber, C: EdgeCount>(
    edges: &[CountedEdge<I, C>],
    i: usize,
    near: &[usize],
) -> bool
    requires held { All (IsHeld I.limit) (plain_edges I.whole C.counts edges.now) }
    requires within { i < length edges.now }
    requires near { AreNear (plain_edges I.whole C.counts edges.now) i near.now }
{
    let e = &edges[i];
    for k in 0..near.len() {
        let j = near[k];
        let f = &edges[j];
        if !meet_in_ends(e, f) {
            return true;
        }
    }
    false
}

// Returns whether no two edges cross. The strips are those of the edges. Those before the place `from` meet each later
// edge in ends alone.
fn none_cross<I: IntNumber, C: EdgeCount, A: Allocator + Clone>(
    alloc: A,
    edges: &[CountedEdge<I, C>],
    strips: &Option<Strips<I, A>>,
    from: usize,
) -> Result<bool, AllocError>
    requires held { All (IsHeld I.limit) (plain_edges I.whole C.counts edges.now) }
    requires ascending { IsAscending (plain_edges I.whole C.counts edges.now) }
    requires strips { IfSome strips.now (AreHeldStripsOf I.whole I.limit (plain_edges I.whole C.counts edges.now)) }
    requires settled { AreSettledBefore (plain_edges I.whole C.counts edges.now) from }
    ensures none { IfOk result (λ b. b ≡ true → NoneCross (plain_edges I.whole C.counts edges.now)) }
    ensures some { IfOk result (λ b. b ≡ false → SomeCross (plain_edges I.whole C.counts edges.now)) }
{
    let heights = edge_heights(alloc.clone()?, edges)?;
    let blocks = block_heights(alloc.clone()?, edges)?;
    let mut near = Vec::new(alloc);
    for i in from..edges.len() {
        let none = crosses_none_behind(&mut near, edges, strips, &heights, &blocks, i)?;
        if !none {
            return Ok(false);
        }
    }
    Ok(true)
}

// Returns whether the edge at place i crosses no later edge. It leaves places in `near`.
fn crosses_none_behind<I: IntNumber, C: EdgeCount, A: Allocator>(
    near: &mut Vec<usize, A>,
    edges: &[CountedEdge<I, C>],
    strips: &Option<Strips<I, A>>,
    heights: &[Heights<I>],
    blocks: &[Heights<I>],
    i: usize,
) -> Result<bool, AllocError>
    requires held { All (IsHeld I.limit) (plain_edges I.whole C.counts edges.now) }
    requires ascending { IsAscending (plain_edges I.whole C.counts edges.now) }
    requires strips { IfSome strips.now (AreHeldStripsOf I.whole I.limit (plain_edges I.whole C.counts edges.now)) }
    requires heights { AreEdgeHeights I.whole (plain_edges I.whole C.counts edges.now) heights.now }
    requires blocks { AreBlockHeights I.whole (plain_edges I.whole C.counts edges.now) blocks.now }
    requires within { i < length edges.now }
    ensures none { IfOk result (λ b. b ≡ true → CrossesNoneBehind (plain_edges I.whole C.counts edges.now) i) }
    ensures some { IfOk result (λ b. b ≡ false → CrossesSomeBehind (plain_edges I.whole C.counts edges.now) i) }
{
    if has_short_run(edges, i) {
        return Ok(crosses_none_in_run(edges, heights, blocks, i));
    }
    find_open(near, edges, strips, &None, i)?;
    Ok(crosses_none(edges, i, near))
}

// Returns whether few edges after place i start left of the right end of the edge there. The edges ascend.
fn has_short_run<I: IntNumber, C: EdgeCount>(edges: &[CountedEdge<I, C>], i: usize) -> bool
    requires { i < length edges.now }
{
    let far = i.saturating_add(MOST_BY_BLOCKS);
    if edges.len() <= far {
        return true;
    }
    !is_less(edges[far].a.x, edges[i].b.x)
}

// Returns whether the edge at place i crosses no later edge. It crosses none that starts at its right end, or right of
// it. The heights of the others are tested block by block.
fn crosses_none_in_run<I: IntNumber, C: EdgeCount>(
    edges: &[CountedEdge<I, C>],
    heights: &[Heights<I>],
    blocks: &[Heights<I>],
    i: usize,
) -> bool
    requires held { All (IsHeld I.limit) (plain_edges I.whole C.counts edges.now) }
    requires ascending { IsAscending (plain_edges I.whole C.counts edges.now) }
    requires heights { AreEdgeHeights I.whole (plain_edges I.whole C.counts edges.now) heights.now }
    requires blocks { AreBlockHeights I.whole (plain_edges I.whole C.counts edges.now) blocks.now }
    requires within { i < length edges.now }
    ensures none { result ≡ true → CrossesNoneBehind (plain_edges I.whole C.counts edges.now) i }
    ensures some { result ≡ false → CrossesSomeBehind (plain_edges I.whole C.counts edges.now) i }
{
    let e = &edges[i];
    let own = heights_of(e);
    let mut j = i + 1;
    while j < edges.len() && is_less(edges[j].a.x, e.b.x) {
        let Some(end) = uncrossed_end(edges, heights, blocks, e, own, j) else {
            return false;
        };
        j = end;
    }
    true
}

// Returns a place such that e crosses no edge from the place `from` up to there, or None if e crosses an edge.
fn uncrossed_end<I: IntNumber, C: EdgeCount>(
    edges: &[CountedEdge<I, C>],
    heights: &[Heights<I>],
    blocks: &[Heights<I>],
    e: &CountedEdge<I, C>,
    own: Heights<I>,
    from: usize,
) -> Option<usize>
    requires held { All (IsHeld I.limit) (plain_edges I.whole C.counts edges.now) }
    requires heights { AreEdgeHeights I.whole (plain_edges I.whole C.counts edges.now) heights.now }
    requires blocks { AreBlockHeights I.whole (plain_edges I.whole C.counts edges.now) blocks.now }
    requires one { IsHeld I.limit (plain_edge I.whole C.counts e.now) }
    requires own { LiesBetween (ends_of (plain_edge I.whole C.counts e.now)) (I.whole own.low) (I.whole own.high) }
    requires within { from < length edges.now }
    ensures further { IfSome result (λ end. from < end) }
    ensures none { IfSome result (CrossesNoneOf (plain_edges I.whole C.counts edges.now)
        (plain_edge I.whole C.counts e.now) from) }
    ensures some { result ≡ None → CrossesSomeOf (plain_edges I.whole C.counts edges.now)
        (plain_edge I.whole C.counts e.now) from (length edges.now) }
{
    let end = block_end(from, edges.len());
    let meets = overlap(own, blocks[from / BLOCK_SIZE]);
    if !meets {
        return Some(end);
    }
    let to = met_end(edges, blocks, e, own, end);
    if crosses_some_of(edges, heights, e, own, from, to) {
        return None;
    }
    Some(to)
}

// Returns the end of the blocks from the place `from` on that e may meet: those whose heights overlap with its own and
// that begin left of its right end. A block begins at `from`, or no edge.
fn met_end<I: IntNumber, C: EdgeCount>(
    edges: &[CountedEdge<I, C>],
    blocks: &[Heights<I>],
    e: &CountedEdge<I, C>,
    own: Heights<I>,
    from: usize,
) -> usize
    requires blocks { AreBlockHeights I.whole (plain_edges I.whole C.counts edges.now) blocks.now }
    requires within { from ≤ length edges.now }
    ensures ordered { from ≤ result }
    ensures within { result ≤ length edges.now }
{
    let mut end = from;
    while end < edges.len() && is_less(edges[end].a.x, e.b.x) {
        let meets = overlap(own, blocks[end / BLOCK_SIZE]);
        if !meets {
            return end;
        }
        end = block_end(end, edges.len());
    }
    end
}

// Returns whether e crosses an edge from the place `from` up to `to`. The heights of many are tested at once first.
fn crosses_some_of<I: IntNumber, C: EdgeCount>(
    edges: &[CountedEdge<I, C>],
    heights: &[Heights<I>],
    e: &CountedEdge<I, C>,
    own: Heights<I>,
    from: usize,
    to: usize,
) -> bool
    requires held { All (IsHeld I.limit) (plain_edges I.whole C.counts edges.now) }
    requires heights { AreEdgeHeights I.whole (plain_edges I.whole C.counts edges.now) heights.now }
    requires one { IsHeld I.limit (plain_edge I.whole C.counts e.now) }
    requires own { LiesBetween (ends_of (plain_edge I.whole C.counts e.now)) (I.whole own.low) (I.whole own.high) }
    requires ordered { from ≤ to }
    requires within { to ≤ length edges.now }
    ensures none { result ≡ false → CrossesNoneOf (plain_edges I.whole C.counts edges.now)
        (plain_edge I.whole C.counts e.now) from to }
    ensures some { result ≡ true → CrossesSomeOf (plain_edges I.whole C.counts edges.now)
        (plain_edge I.whole C.counts e.now) from to }
{
    if LEAST_AT_ONCE <= to - from && are_apart(own, heights, from, to) {
        return false;
    }
    for k in from..to {
        let f = &edges[k];
        if crosses_between(e, f, own, heights[k]) {
            return true;
        }
    }
    false
}

// Returns whether the edges cross. `own` are the heights of e, and `others` those of f.
fn crosses_between<I: IntNumber, C: EdgeCount>(
    e: &CountedEdge<I, C>,
    f: &CountedEdge<I, C>,
    own: Heights<I>,
    others: Heights<I>,
) -> bool
    requires one { IsHeld I.limit (plain_edge I.whole C.counts e.now) }
    requires other { IsHeld I.limit (plain_edge I.whole C.counts f.now) }
    requires own { LiesBetween (ends_of (plain_edge I.whole C.counts e.now)) (I.whole own.low) (I.whole own.high) }
    requires others { LiesBetween (ends_of (plain_edge I.whole C.counts f.now))
        (I.whole others.low) (I.whole others.high) }
    ensures { result
        ≡ cross (ends_of (plain_edge I.whole C.counts e.now)) (ends_of (plain_edge I.whole C.counts f.now)) }
{
    let meets = overlap(own, others);
    if meets {
        return cross(e, f);
    }
    false
}

// Returns whether the edge at place i crosses no later edge. It meets those at other places than `near` in ends alone.
fn crosses_none<I: IntNumber, C: EdgeCount>(
    edges: &[CountedEdge<I, C>],
    i: usize,
    near: &[usize],
) -> bool
    requires held { All (IsHeld I.limit) (plain_edges I.whole C.counts edges.now) }
    requires within { i < length edges.now }
    requires near { AreNear (plain_edges I.whole C.counts edges.now) i near.now }
    ensures none { result ≡ true → CrossesNoneBehind (plain_edges I.whole C.counts edges.now) i }
    ensures some { result ≡ false → CrossesSomeBehind (plain_edges I.whole C.counts edges.now) i }
{
    let e = &edges[i];
    for k in 0..near.len() {
        let j = near[k];
        let f = &edges[j];
        if cross(e, f) {
            return false;
        }
    }
    true
}
