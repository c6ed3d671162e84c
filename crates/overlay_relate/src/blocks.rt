//! Blocks of edges that stand in a row, each with numbers between which its edges lie.

ghost use Rattle.std.specs.Prelude.{◌≡◌, ◌<◌, ◌≤◌, ◌≤ℤ◌, length, map, All, IfOk};
ghost use Rattle.overlay_geom.specs.Points.{plain_point};
ghost use Rattle.overlay_geom.specs.Resolved.{plain_edge, plain_edges, IsLongEdge};
ghost use Rattle.overlay_relate.specs.Blocks.{plain_block, plain_blocks, is_clear};
ghost use Rattle.overlay_relate.specs.Blocks.{LiesBetween, IsBlockOf, AreClear};

use crate::form::FormOf;
use crate::order::{greater, lesser};
use overlay_geom::edge::IntEdge;
use overlay_geom::number::IntNumber;
use overlay_geom::point::IntPoint;
use overlay_pairs::extents::is_less;
use std::alloc::{AllocError, Allocator};

/// The edges from one place up to another, and numbers between which they lie.
#[derive(Clone, Copy)]
pub struct Block<I> {
    /// The place of the first edge.
    pub start: usize,
    /// The place after the last edge.
    pub end: usize,
    /// No edge reaches further left.
    pub left: I,
    /// No edge reaches further right.
    pub right: I,
    /// No edge reaches further down.
    pub bottom: I,
}

impl<I: Copy> FormOf<Block<I>> for Block<I> {
    ghost meant = { λ b. b };

    /// Returns the block.
    fn form(value: Block<I>) -> Block<I> {
        value
    }

    /// Returns the block.
    fn value(self) -> Block<I> {
        self
    }
}

/// Returns the blocks of `size` edges, in their order; the last may have fewer.
pub(crate) fn blocks_over<I: IntNumber, A: Allocator>(
    alloc: A,
    edges: &[IntEdge<I>],
    size: usize,
) -> Result<Vec<Block<I>, A>, AllocError>
    requires some { 0 < size }
    ensures ok { IfOk result (λ v. All (IsBlockOf (plain_edges I.whole edges.now)) (plain_blocks I.whole v.items)) }
{
    let mut blocks = Vec::new(alloc);
    let mut start = 0;
    while start < edges.len() {
        let end = if edges.len() - start < size {
            edges.len()
        } else {
            start + size
        };
        blocks.push(block_over(edges, start, end))?;
        start = end;
    }
    Ok(blocks)
}

// The block of the edges from one place up to another.
fn block_over<I: IntNumber>(edges: &[IntEdge<I>], start: usize, end: usize) -> Block<I>
    requires some { start < end }
    requires within { end ≤ length edges.now }
    ensures { IsBlockOf (plain_edges I.whole edges.now) (plain_block I.whole result) }
{
    let first = &edges[start];
    let mut block = Block {
        start,
        end,
        left: first.a.x,
        right: first.b.x,
        bottom: first.a.y,
    };
    for n in start..end {
        block = widened(block, &edges[n]);
    }
    block
}

// The block, with numbers between which one more edge lies.
fn widened<I: IntNumber>(block: Block<I>, e: &IntEdge<I>) -> Block<I>
    ensures start { result.start ≡ block.start }
    ensures end { result.end ≡ block.end }
    ensures more { LiesBetween (plain_block I.whole result) (plain_edge I.whole e.now) }
    ensures left { I.whole result.left ≤ℤ I.whole block.left }
    ensures right { I.whole block.right ≤ℤ I.whole result.right }
    ensures bottom { I.whole result.bottom ≤ℤ I.whole block.bottom }
{
    Block {
        start: block.start,
        end: block.end,
        left: lesser(block.left, e.a.x),
        right: greater(block.right, e.b.x),
        bottom: lesser(block.bottom, lesser(e.a.y, e.b.y)),
    }
}

/// The place up to which the edges from a place on have the point neither on them nor above them, as a block of so
/// many edges tells that begins there; or this place itself.
pub(crate) fn passed<I: IntNumber, B: FormOf<Block<I>>>(
    blocks: &[B],
    size: usize,
    at: usize,
    p: IntPoint<I>,
) -> usize
    requires { 0 < size }
    ensures { (es : _) → All (IsLongEdge I.limit) es
        → All (IsBlockOf es) (plain_blocks I.whole (map B.meant blocks.now))
        → AreClear es (plain_point I.whole p) at result }
{
    let place = at / size;
    if at % size != 0 || place >= blocks.len() {
        return at;
    }
    let block = blocks[place].value();
    if block.start == at && is_clear(p, block) {
        block.end
    } else {
        at
    }
}

// Whether the point lies left of the block, right of it or below it.
fn is_clear<I: IntNumber>(p: IntPoint<I>, block: Block<I>) -> bool
    ensures { result ≡ is_clear (plain_point I.whole p) (plain_block I.whole block) }
{
    is_less(p.x, block.left) || is_less(block.right, p.x) || is_less(p.y, block.bottom)
}
