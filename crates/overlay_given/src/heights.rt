//! The heights of edges, and of blocks of neighbours in a list.

ghost use Rattle.std.specs.Prelude.{◌≡◌, ◌&&◌, ◌+◌, ◌*◌, ◌/◌, ◌<◌, ◌≤◌, ◌≤ℤ◌, int_lt, true, false, length, IfOk};
ghost use Rattle.overlay_geom.specs.Edges.{ends_of};
ghost use Rattle.overlay_order.specs.Content.{plain_edge, plain_edges};
ghost use Rattle.overlay_pairs.specs.Places.{IsAt};
ghost use Rattle.overlay_given.specs.Heights.{LiesBetween, AreApartFrom, AreEdgeHeights, AreBlockHeights};

use overlay_geom::number::IntNumber;
use overlay_order::count::EdgeCount;
use overlay_order::edge::CountedEdge;
use overlay_pairs::extents::is_less;
use overlay_pairs::near::on_by;
use std::alloc::{AllocError, Allocator};

/// Number of edges in a block. The last block of a list may have fewer.
pub(crate) const BLOCK_SIZE: usize = 8;

/// A range of y-coordinates.
#[derive(Clone, Copy)]
pub(crate) struct Heights<I> {
    /// The least.
    pub low: I,
    /// The greatest.
    pub high: I,
}

/// Returns the heights of the edge.
pub(crate) fn heights_of<I: IntNumber, C: EdgeCount>(e: &CountedEdge<I, C>) -> Heights<I>
    ensures { LiesBetween (ends_of (plain_edge I.whole C.counts e.now)) (I.whole result.low) (I.whole result.high) }
{
    if is_less(e.a.y, e.b.y) {
        return Heights {
            low: e.a.y,
            high: e.b.y,
        };
    }
    Heights {
        low: e.b.y,
        high: e.a.y,
    }
}

/// Returns whether the ranges share more than an end.
pub(crate) fn overlap<I: IntNumber>(s: Heights<I>, t: Heights<I>) -> bool
    ensures { result ≡ (int_lt (I.whole t.low) (I.whole s.high) && int_lt (I.whole s.low) (I.whole t.high)) }
{
    is_less(t.low, s.high) && is_less(s.low, t.high)
}

/// Returns whether none of the heights from the place `from` up to `to` overlap with `own`. The loop has no branches:
/// several heights are tested at once.
pub(crate) fn are_apart<I: IntNumber>(
    own: Heights<I>,
    heights: &[Heights<I>],
    from: usize,
    to: usize,
) -> bool
    requires { to ≤ length heights.now }
    ensures { result ≡ true → AreApartFrom I.whole own heights.now from to }
{
    let mut overlaps = false;
    for k in from..to {
        let meets = overlap(own, heights[k]);
        overlaps |= meets;
    }
    !overlaps
}

/// Returns the heights of each edge.
pub(crate) fn edge_heights<I: IntNumber, C: EdgeCount, A: Allocator>(
    alloc: A,
    edges: &[CountedEdge<I, C>],
) -> Result<Vec<Heights<I>, A>, AllocError>
    ensures ok { IfOk result (λ heights.
        AreEdgeHeights I.whole (plain_edges I.whole C.counts edges.now) heights.items) }
{
    let mut heights = Vec::with_capacity(alloc, edges.len())?;
    for k in 0..edges.len() {
        let of_k = heights_of(&edges[k]);
        heights.push(of_k)?;
    }
    Ok(heights)
}

/// Returns the heights of each block of neighbours. A block begins at each multiple of its size.
pub(crate) fn block_heights<I: IntNumber, C: EdgeCount, A: Allocator>(
    alloc: A,
    edges: &[CountedEdge<I, C>],
) -> Result<Vec<Heights<I>, A>, AllocError>
    ensures ok { IfOk result (λ blocks.
        AreBlockHeights I.whole (plain_edges I.whole C.counts edges.now) blocks.items) }
{
    let mut blocks = Vec::new(alloc);
    let mut at = 0;
    while at < edges.len() {
        let heights = heights_from(edges, at);
        blocks.push(heights)?;
        at = on_by(at, BLOCK_SIZE, edges.len());
    }
    Ok(blocks)
}

// Returns the heights of the block that begins at the place.
fn heights_from<I: IntNumber, C: EdgeCount>(edges: &[CountedEdge<I, C>], at: usize) -> Heights<I>
    requires { at < length edges.now }
    ensures { (k : _) → (f : _) → at ≤ k → k < at + 8 → IsAt (plain_edges I.whole C.counts edges.now) k f
        → LiesBetween (ends_of f) (I.whole result.low) (I.whole result.high) }
{
    let to = on_by(at, BLOCK_SIZE, edges.len());
    let mut heights = heights_of(&edges[at]);
    for k in at..to {
        let of_k = heights_of(&edges[k]);
        heights = joined(heights, of_k);
    }
    heights
}

// Returns the least range that holds both.
fn joined<I: IntNumber>(s: Heights<I>, t: Heights<I>) -> Heights<I>
    ensures first_low { I.whole result.low ≤ℤ I.whole s.low }
    ensures second_low { I.whole result.low ≤ℤ I.whole t.low }
    ensures first_high { I.whole s.high ≤ℤ I.whole result.high }
    ensures second_high { I.whole t.high ≤ℤ I.whole result.high }
{
    Heights {
        low: lesser(s.low, t.low),
        high: greater(s.high, t.high),
    }
}

// Returns the lesser number.
fn lesser<I: IntNumber>(y: I, z: I) -> I
    ensures first { I.whole result ≤ℤ I.whole y }
    ensures second { I.whole result ≤ℤ I.whole z }
{
    if is_less(y, z) {
        return y;
    }
    z
}

// Returns the greater number.
fn greater<I: IntNumber>(y: I, z: I) -> I
    ensures first { I.whole y ≤ℤ I.whole result }
    ensures second { I.whole z ≤ℤ I.whole result }
{
    if is_less(y, z) {
        return z;
    }
    y
}

/// Returns the end of the block of a place: where the next begins, or the number of edges.
pub(crate) fn block_end(place: usize, count: usize) -> usize
    requires { place < count }
    ensures behind { place < result }
    ensures within { result ≤ count }
    ensures block { result ≤ place / 8 * 8 + 8 }
{
    on_by(place, BLOCK_SIZE - place % BLOCK_SIZE, count)
}
