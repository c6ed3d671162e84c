//! Edges in the order of their lines: edges on nearby lines, and near each other, come together. Short edges come
//! behind all others, in the order of their places.

ghost use Rattle.std.specs.Prelude.{◌<◌, length, IfOk};
ghost use Rattle.std.specs.List.Sorted.{IsPermutation};
ghost use Rattle.overlay_order.specs.Content.{plain_edges};
ghost use Rattle.overlay_pairs.specs.Extents.{extents_of, plain_extents};

use crate::extents::Extent;
use crate::strips::extents_of_edges;
use overlay_geom::number::IntNumber;
use overlay_geom::point::IntPoint;
use overlay_order::count::EdgeCount;
use overlay_order::edge::CountedEdge;
use overlay_order::gather::take_in_order;
use overlay_order::sort_points::{greater, lesser};
use std::alloc::{AllocError, Allocator};

// Number of bits of a scaled coordinate, and the scaled coordinate in the middle.
const SCALED_BITS: u32 = 30;

const SCALED_MIDDLE: u64 = 1 << 29;
// Width and height below which an edge is short, and the bit that tells short edges.
const SHORT_SIZE: u64 = 1 << 22;

const SHORT_MARK: u64 = 1 << 63;
// Number of bits of a slope, and of those of a height that are left out.
const SLOPE_BITS: u32 = 20;

const LOST_BITS: u32 = 10;
// Number of bits of a line, and of the bits of a scaled coordinate that do not tell a cell.
const LINE_BITS: u32 = 44;

const CELL_BITS: u32 = 28;

// How coordinates are scaled: less those of the corner, and shifted.
#[derive(Drop)]
struct Scale<I> {
    corner: IntPoint<I>,
    left: u32,
    right: u32,
}

// A number for the line of the edge at a place.
#[derive(Clone, Copy)]
struct Line {
    number: u64,
    place: usize,
}

/// Returns the boxes of the edges in the order of their lines.
pub(crate) fn by_lines<I: IntNumber, C: EdgeCount, A: Allocator + Clone>(
    alloc: A,
    edges: &[CountedEdge<I, C>],
) -> Result<Vec<Extent<I>, A>, AllocError>
    ensures permutation { IfOk result (λ sorted. IsPermutation
        (extents_of (plain_edges I.whole C.counts edges.now)) (plain_extents I.whole sorted.items)) }
{
    let mut extents = extents_of_edges(alloc.clone()?, edges)?;
    let lines = lines_of(alloc, edges)?;
    take_in_order(&mut extents, &lines, |line| line.place)?;
    Ok(extents)
}

// Returns the lines of the edges, in the order of their numbers.
fn lines_of<I: IntNumber, C: EdgeCount, A: Allocator>(
    alloc: A,
    edges: &[CountedEdge<I, C>],
) -> Result<Vec<Line, A>, AllocError> {
    let mut lines = Vec::with_capacity(alloc, edges.len())?;
    if let Some(first) = edges.first() {
        let scale = scale_of(edges, first.a);
        for (place, e) in edges.iter().enumerate() {
            let number = number_of(&scale, e.a, e.b);
            lines.push(Line { number, place })?;
        }
    }
    lines.sort_by(|s, t| s.number.cmp(&t.number))?;
    Ok(lines)
}

// Returns the scale for the edges and a point.
fn scale_of<I: IntNumber, C: EdgeCount>(edges: &[CountedEdge<I, C>], v: IntPoint<I>) -> Scale<I> {
    let mut low = v;
    let mut high = v;
    for e in edges {
        low = IntPoint::new(lesser(low.x, e.a.x), lesser(low.y, lesser(e.a.y, e.b.y)));
        high = IntPoint::new(
            greater(high.x, e.b.x),
            greater(high.y, greater(e.a.y, e.b.y)),
        );
    }
    let size = size_of(low, high);
    let bits = u64::BITS.wrapping_sub(size.leading_zeros());
    Scale {
        corner: low,
        left: SCALED_BITS.saturating_sub(bits),
        right: bits.saturating_sub(SCALED_BITS),
    }
}

/// Returns the distance of two points in x or in y, whichever is greater.
pub(crate) fn size_of<I: IntNumber>(p: IntPoint<I>, q: IntPoint<I>) -> u64 {
    p.x.distance(q.x).max(p.y.distance(q.y))
}

// Returns a number for the edge from a to b: for its line, or for its place where it is short.
fn number_of<I: IntNumber>(scale: &Scale<I>, a: IntPoint<I>, b: IntPoint<I>) -> u64 {
    let ax = scaled(scale, a.x.distance(scale.corner.x));
    let ay = scaled(scale, a.y.distance(scale.corner.y));
    let bx = scaled(scale, b.x.distance(scale.corner.x));
    let by = scaled(scale, b.y.distance(scale.corner.y));
    let rises = ay <= by;
    let dx = bx.wrapping_sub(ax);
    let dy = if rises {
        by.wrapping_sub(ay)
    } else {
        ay.wrapping_sub(by)
    };
    let x = middle_of(ax, bx);
    let y = middle_of(ay, by);
    if dx < SHORT_SIZE && dy < SHORT_SIZE {
        return SHORT_MARK | by_turns(x, y);
    }
    let cell = by_turns(x.wrapping_shr(CELL_BITS), y.wrapping_shr(CELL_BITS));
    cell.wrapping_shl(LINE_BITS) | line_of(ax, ay, dx, dy, rises)
}

// Returns a number for the line that passes the point (x, y), and rises or falls by dy on a width of dx. Its bits are,
// by turns, those of the line's direction and of the height at which it passes the middle of the box.
fn line_of(x: u64, y: u64, dx: u64, dy: u64, rises: bool) -> u64 {
    if dy <= dx {
        by_turns(
            turned(1, rises, slope_of(dy, dx)),
            height_of(x, y, dx, dy, rises),
        )
    } else {
        by_turns(
            turned(3, !rises, slope_of(dx, dy)),
            height_of(y, x, dy, dx, rises),
        )
    }
}

// Returns a distance from the corner, scaled.
fn scaled<I: IntNumber>(scale: &Scale<I>, distance: u64) -> u64 {
    distance.wrapping_shl(scale.left).wrapping_shr(scale.right)
}

// Returns the middle of two scaled coordinates.
fn middle_of(u: u64, v: u64) -> u64 {
    u.wrapping_add(v).wrapping_shr(1)
}

// Returns the number of a direction: `halves` halves of a right angle, and the slope more or less.
fn turned(halves: u64, is_more: bool, slope: u64) -> u64 {
    let axis = halves.wrapping_shl(SLOPE_BITS);
    if is_more {
        axis.wrapping_add(slope)
    } else {
        axis.wrapping_sub(slope)
    }
}

// Returns the quotient of two lengths as a slope, or 0 where there is none.
fn slope_of(rise: u64, run: u64) -> u64 {
    quotient(rise.wrapping_shl(SLOPE_BITS), run)
}

// Returns the quotient, rounded down, or 0 where there is none.
fn quotient(t: u64, d: u64) -> u64 {
    if d == 0 { 0 } else { t / d }
}

// Returns the height at which a line passes the middle of the box. It passes the point (x, y), and rises or falls by
// `rise` on a run.
fn height_of(x: u64, y: u64, run: u64, rise: u64, rises: bool) -> u64 {
    let way = if x < SCALED_MIDDLE {
        SCALED_MIDDLE.wrapping_sub(x)
    } else {
        x.wrapping_sub(SCALED_MIDDLE)
    };
    let change = quotient(way.wrapping_mul(rise), run);
    let base = y.wrapping_add(SCALED_MIDDLE).wrapping_add(SCALED_MIDDLE);
    let height = if (x < SCALED_MIDDLE) == rises {
        base.wrapping_add(change)
    } else {
        base.wrapping_sub(change)
    };
    height.wrapping_shr(LOST_BITS)
}

// Returns the number with the bits of u and v by turns, where they have at most 32.
fn by_turns(u: u64, v: u64) -> u64 {
    spread(u).wrapping_shl(1) | spread(v)
}

// Returns the number with a zero before each of the last 32 bits of u.
fn spread(u: u64) -> u64 {
    let u = (u | u.wrapping_shl(16)) & 0x0000FFFF0000FFFF;
    let u = (u | u.wrapping_shl(8)) & 0x00FF00FF00FF00FF;
    let u = (u | u.wrapping_shl(4)) & 0x0F0F0F0F0F0F0F0F;
    let u = (u | u.wrapping_shl(2)) & 0x3333333333333333;
    (u | u.wrapping_shl(1)) & 0x5555555555555555
}
