//! Blocks of counted edges that stand in a row, each with numbers between which its edges lie.

ghost use Rattle.std.specs.Prelude.{◌≡◌, ◌<◌, ◌≤◌, ◌≤ℤ◌, length, map, All, IfOk};
ghost use Rattle.overlay_geom.specs.Edges.{ends_of};
ghost use Rattle.overlay_geom.specs.Points.{plain_point};
ghost use Rattle.overlay_order.specs.Content.{plain_edge, plain_edges};
ghost use Rattle.overlay_relate.specs.Blocks.{plain_block, plain_blocks, is_clear, LiesBetween};
ghost use Rattle.overlay_sectors.specs.Blocks.{IsBlockOf, AreBlocked, AreAside};

use overlay_geom::number::IntNumber;
use overlay_geom::point::IntPoint;
use overlay_order::count::EdgeCount;
use overlay_order::edge::CountedEdge;
use overlay_pairs::extents::is_less;
use overlay_relate::blocks::Block;
use overlay_relate::form::FormOf;
use std::alloc::{AllocError, Allocator};

/// Counted edges in some form, with blocks of them.
#[derive(Clone, Copy)]
pub struct BlockedEdges<'a, E, B> {
    /// The edges.
    pub edges: &'a [E],
    /// Blocks of 64 of them.
    pub blocks: &'a [B],
    /// Blocks of 4096 of them.
    pub groups: &'a [B],
}

/// Number of edges in a block.
pub const BLOCK: usize = 64;

/// Number of edges in a group.
pub const GROUP: usize = 4096;

/// Returns the blocks of `size` edges, in their order; the last may have fewer.
pub fn blocks_over<I: IntNumber, C: EdgeCount, A: Allocator>(
    alloc: A,
    edges: &[CountedEdge<I, C>],
    size: usize,
) -> Result<Vec<Block<I>, A>, AllocError>
    requires { 0 < size }
    ensures { IfOk result (λ v. All (IsBlockOf (plain_edges I.whole C.counts edges.now))
        (plain_blocks I.whole v.items)) }
{
    let mut blocks = Vec::new(alloc);
    let mut start = 0;
    while start < edges.len() {
        let end = if edges.len() - start < size {
            edges.len()
        } else {
            start + size
        };
        blocks.push(block_over(edges, start, end))?;
        start = end;
    }
    Ok(blocks)
}

// The block of the edges from one place up to another.
fn block_over<I: IntNumber, C: EdgeCount>(
    edges: &[CountedEdge<I, C>],
    start: usize,
    end: usize,
) -> Block<I>
    requires some { start < end }
    requires within { end ≤ length edges.now }
    ensures { IsBlockOf (plain_edges I.whole C.counts edges.now) (plain_block I.whole result) }
{
    let first = &edges[start];
    let mut block = Block {
        start,
        end,
        left: first.a.x,
        right: first.b.x,
        bottom: first.a.y,
    };
    for n in start..end {
        block = widened(block, &edges[n]);
    }
    block
}

// The block, with numbers between which one more edge lies.
fn widened<I: IntNumber, C: EdgeCount>(block: Block<I>, e: &CountedEdge<I, C>) -> Block<I>
    ensures start { result.start ≡ block.start }
    ensures end { result.end ≡ block.end }
    ensures more { LiesBetween (plain_block I.whole result) (ends_of (plain_edge I.whole C.counts e.now)) }
    ensures left { I.whole result.left ≤ℤ I.whole block.left }
    ensures right { I.whole block.right ≤ℤ I.whole result.right }
    ensures bottom { I.whole result.bottom ≤ℤ I.whole block.bottom }
{
    Block {
        start: block.start,
        end: block.end,
        left: lesser(block.left, e.a.x),
        right: greater(block.right, e.b.x),
        bottom: lesser(block.bottom, lesser(e.a.y, e.b.y)),
    }
}

// Returns a place behind edges that are below no sector round the point and do not lead from it. The block of that size
// tells it that begins at the given place; where it does not, the place stays.
fn passed<I: IntNumber, B: FormOf<Block<I>>>(
    blocks: &[B],
    size: usize,
    at: usize,
    p: IntPoint<I>,
) -> usize
    requires { 0 < size }
    ensures { (es : _) → All (IsBlockOf es) (plain_blocks I.whole (map B.meant blocks.now))
        → AreAside es (plain_point I.whole p) at result }
{
    let place = at / size;
    if at % size != 0 || place >= blocks.len() {
        return at;
    }
    let block = blocks[place].value();
    if block.start == at && is_clear(p, block) {
        block.end
    } else {
        at
    }
}

/// Returns the place up to which no edge from a place on is below a sector round the point or leads from it, as groups
/// or blocks tell; or this place itself.
pub(crate) fn passed_from<I: IntNumber, B: FormOf<Block<I>>>(
    blocks: &[B],
    groups: &[B],
    at: usize,
    p: IntPoint<I>,
) -> usize
    ensures { (es : _) → AreBlocked es (plain_blocks I.whole (map B.meant blocks.now))
        (plain_blocks I.whole (map B.meant groups.now)) → AreAside es (plain_point I.whole p) at result }
{
    let next = passed(groups, GROUP, at, p);
    if at < next {
        next
    } else {
        passed(blocks, BLOCK, at, p)
    }
}

// Returns whether the point lies left of the block, right of it or below it.
fn is_clear<I: IntNumber>(p: IntPoint<I>, block: Block<I>) -> bool
    ensures { result ≡ is_clear (plain_point I.whole p) (plain_block I.whole block) }
{
    is_less(p.x, block.left) || is_less(block.right, p.x) || is_less(p.y, block.bottom)
}

// Returns the lesser of two numbers.
fn lesser<I: IntNumber>(x: I, y: I) -> I
    ensures first { I.whole result ≤ℤ I.whole x }
    ensures second { I.whole result ≤ℤ I.whole y }
{
    if y.compare(x).is_lt() { y } else { x }
}

// Returns the greater of two numbers.
fn greater<I: IntNumber>(x: I, y: I) -> I
    ensures first { I.whole x ≤ℤ I.whole result }
    ensures second { I.whole y ≤ℤ I.whole result }
{
    if x.compare(y).is_lt() { y } else { x }
}
