//! The later edges of a list that an edge may meet.

ghost use Rattle.std.specs.Prelude.{◌≡◌, ◌↔◌, ◌⊎◌, ◌+◌, ◌-◌, ◌≤◌, ◌<◌, ◌<ℤ◌, ◌/◌, ◌++◌, ◌∷◌, []};
ghost use Rattle.std.specs.Prelude.{true, false, take, All, length, IfSome, IsTrue, OnOk};
ghost use Rattle.overlay_order.specs.Content.{plain_edge, plain_edges, IsAscending, IsHeld};
ghost use Rattle.overlay_pairs.specs.Extents.{extent_of, plain_extent, plain_extents, AreByHeights, AreInBlocks};
ghost use Rattle.overlay_pairs.specs.Extents.{AreInStrips, IsApart, ShareNoHeight};
ghost use Rattle.overlay_pairs.specs.Strips.{AreHeldStripsOf};
ghost use Rattle.overlay_pairs.specs.Places.{IsAt};
ghost use Rattle.overlay_pairs.specs.Near.{run_of, AreApartFrom, AreNearAdded, AreNearBehind};
ghost use Rattle.overlay_pairs.specs.Near.{BeginsApart, IsSearchedTo};

use crate::beside::find_in_bundles;
use crate::extents::{Extent, extent_of, is_apart, is_less, is_wholly_below};
use crate::spans::{place_right_of, run_end};
use crate::strips::{BLOCK_SIZE, Strips};
use overlay_geom::number::IntNumber;
use overlay_order::count::EdgeCount;
use overlay_order::edge::CountedEdge;
use std::alloc::{AllocError, Allocator};

// Greatest number of edges that are tested one by one. Where there may be more, blocks or bundles are searched.
const MOST_ONE_BY_ONE: usize = 112;

/// Finds the places of the edges from `from` on that an edge may meet elsewhere than in ends. These are all that start
/// up to its right end, or those of them whose heights are not apart from its own. The edges ascend; e need not be in
/// the list.
pub(crate) fn find_near_behind<I: IntNumber, C: EdgeCount, A: Allocator>(
    near: &mut Vec<usize, A>,
    edges: &[CountedEdge<I, C>],
    strips: &Option<Strips<I, A>>,
    e: &CountedEdge<I, C>,
    from: usize,
) -> Result<(), AllocError>
    requires held { All (IsHeld I.limit) (plain_edges I.whole C.counts edges.now) }
    requires ascending { IsAscending (plain_edges I.whole C.counts edges.now) }
    requires strips { IfSome strips.now (AreHeldStripsOf I.whole I.limit (plain_edges I.whole C.counts edges.now)) }
    requires one { IsHeld I.limit (plain_edge I.whole C.counts e.now) }
    requires within { from ≤ length edges.now }
    ensures ok { OnOk result (AreNearBehind (plain_edges I.whole C.counts edges.now) (plain_edge I.whole C.counts e.now)
        from near.new.items) }
{
    near.clear();
    let to = place_right_of(edges, from, e.b.x);
    match strips {
        Some(strips) if MOST_ONE_BY_ONE < to - from => find_by_strips(near, edges, strips, e, from),
        _ => take_by_heights(near, edges, e, from, to),
    }
}

/// Finds, by the strips of the edges, the places of edges from `from` on that start up to the right end of e and whose
/// heights are not apart from its own. It leaves out edges of bundles that e misses.
pub(crate) fn find_by_strips<I: IntNumber, C: EdgeCount, A: Allocator>(
    near: &mut Vec<usize, A>,
    edges: &[CountedEdge<I, C>],
    strips: &Strips<I, A>,
    e: &CountedEdge<I, C>,
    from: usize,
) -> Result<(), AllocError>
    requires held { All (IsHeld I.limit) (plain_edges I.whole C.counts edges.now) }
    requires ascending { IsAscending (plain_edges I.whole C.counts edges.now) }
    requires strips { AreHeldStripsOf I.whole I.limit (plain_edges I.whole C.counts edges.now) strips.now }
    requires one { IsHeld I.limit (plain_edge I.whole C.counts e.now) }
    requires within { from ≤ length edges.now }
    requires empty { near.old.items ≡ [] }
    ensures ok { OnOk result (AreNearBehind (plain_edges I.whole C.counts edges.now) (plain_edge I.whole C.counts e.now)
        from near.new.items) }
{
    let end = run_end(edges, e.b.x, from);
    if end == from {
        Ok(())
    } else if let Some(bundles) = &strips.bundles {
        find_in_bundles(near, bundles, e, run_of(e, from, end))
    } else {
        find_by_blocks(near, strips, run_of(e, from, end))
    }
}

/// Takes the places from `from` on of the edges that start up to the right end of e and share a height with it. No
/// such edge stands from `to` on.
fn take_by_heights<I: IntNumber, C: EdgeCount, A: Allocator>(
    near: &mut Vec<usize, A>,
    edges: &[CountedEdge<I, C>],
    e: &CountedEdge<I, C>,
    from: usize,
    to: usize,
) -> Result<(), AllocError>
    requires held { All (IsHeld I.limit) (plain_edges I.whole C.counts edges.now) }
    requires ascending { IsAscending (plain_edges I.whole C.counts edges.now) }
    requires one { IsHeld I.limit (plain_edge I.whole C.counts e.now) }
    requires empty { near.old.items ≡ [] }
    requires ordered { from ≤ to }
    requires within { to ≤ length edges.now }
    requires right { (f : _) → IsAt (plain_edges I.whole C.counts edges.now) to f
        → I.whole e.now.b.x <ℤ f.a.x }
    ensures ok { OnOk result (AreNearBehind (plain_edges I.whole C.counts edges.now) (plain_edge I.whole C.counts e.now)
        from near.new.items) }
{
    let of = extent_of(e, from);
    let right = e.b.x;
    let mut j = from;
    while j < to && !is_less(right, edges[j].a.x) {
        if !misses_heights(of, &edges[j]) {
            near.push(j)?;
        }
        j += 1;
    }
    Ok(())
}

/// Returns whether both ends of the edge lie below or above the heights of `of`. It does not order the ends first.
fn misses_heights<I: IntNumber, C: EdgeCount>(of: Extent<I>, e: &CountedEdge<I, C>) -> bool
    ensures { IsTrue result ↔ ShareNoHeight (plain_extent I.whole of)
        (extent_of (plain_edge I.whole C.counts e.now) 0) }
{
    is_less(e.a.y, of.low) && is_less(e.b.y, of.low)
        || is_less(of.high, e.a.y) && is_less(of.high, e.b.y)
}

/// Puts a place behind the first `count` places. Returns the number of places in front: it counts the new place too,
/// unless the test holds.
#[inline(always)]
fn put_unless(test: bool, near: &mut [usize], count: usize, place: usize) -> usize
    requires { count < length near.old }
    ensures length { length near.new ≡ length near.old }
    ensures most { result ≤ count + 1 }
    ensures passed { test ≡ true → take result near.new ≡ take count near.old }
    ensures put { test ≡ false → take result near.new ≡ take count near.old ++ place ∷ [] }
{
    near[count] = place;
    if test { count } else { count + 1 }
}

/// Finds the places of the edges whose boxes do not lie apart from `of`. They are in the strips of its places.
fn find_by_blocks<I: IntNumber, A: Allocator>(
    near: &mut Vec<usize, A>,
    strips: &Strips<I, A>,
    of: Extent<I>,
) -> Result<(), AllocError>
    requires ordered { of.first ≤ of.last }
    requires within { of.last < length strips.now.edges.items }
    requires some { 0 < strips.now.width }
    requires strips { AreInStrips strips.now.width (plain_extents I.whole strips.now.edges.items) }
    requires heights { AreByHeights strips.now.width (plain_extents I.whole strips.now.edges.items) }
    requires blocks { AreInBlocks
        (plain_extents I.whole strips.now.edges.items) (plain_extents I.whole strips.now.of_8.items)
        (plain_extents I.whole strips.now.of_64.items) (plain_extents I.whole strips.now.of_512.items)
        (plain_extents I.whole strips.now.of_4096.items) (plain_extents I.whole strips.now.of_32768.items) }
    requires empty { near.old.items ≡ [] }
    ensures ok { OnOk result (IsSearchedTo (plain_extents I.whole strips.now.edges.items) (plain_extent I.whole of)
        (length strips.now.edges.items) near.new.items) }
{
    let width = strips.width;
    let mut at = of.first / width * width;
    let stop = on_by(of.last / width * width, width, strips.edges.len());
    while at < stop {
        let next = on_by(at, count_passed(strips, of, at), stop);
        if at < next {
            at = next;
        } else {
            let end = on_by(at, BLOCK_SIZE, stop);
            push_block(near, of, &strips.edges, at, end)?;
            at = end;
        }
    }
    Ok(())
}

/// Returns the place `count` further on, or `last` if that is less.
pub fn on_by(at: usize, count: usize, last: usize) -> usize
    requires { at ≤ last }
    ensures from { at ≤ result }
    ensures up_to { result ≤ last }
    ensures no_further { result ≤ at + count }
    ensures ends { (result ≡ last) ⊎ (result ≡ at + count) }
    ensures on { at < last → 0 < count → at < result }
{
    if last - at < count { last } else { at + count }
}

/// Returns how many boxes from `at` on can be skipped: all of a block that misses `of`, or the rest of a strip whose
/// next box lies above `of`. Blocks of 64 and more begin at few places alone.
fn count_passed<I: IntNumber, A: Allocator>(
    strips: &Strips<I, A>,
    of: Extent<I>,
    at: usize,
) -> usize
    requires some { 0 < strips.now.width }
    requires heights { AreByHeights strips.now.width (plain_extents I.whole strips.now.edges.items) }
    requires blocks { AreInBlocks
        (plain_extents I.whole strips.now.edges.items) (plain_extents I.whole strips.now.of_8.items)
        (plain_extents I.whole strips.now.of_64.items) (plain_extents I.whole strips.now.of_512.items)
        (plain_extents I.whole strips.now.of_4096.items) (plain_extents I.whole strips.now.of_32768.items) }
    requires within { at < length strips.now.edges.items }
    ensures { AreApartFrom (plain_extents I.whole strips.now.edges.items) (plain_extent I.whole of)
        at (at + result) }
{
    if at % 64 == 0 {
        count_passed_by_blocks(strips, of, at)
    } else if is_wholly_below(of, strips.edges[at]) {
        strips.width - at % strips.width
    } else if begins_apart(&strips.of_8, 8, of, at) {
        8
    } else {
        0
    }
}

/// Returns how many boxes from `at` on can be skipped, as `count_passed` does, by blocks of all sizes.
fn count_passed_by_blocks<I: IntNumber, A: Allocator>(
    strips: &Strips<I, A>,
    of: Extent<I>,
    at: usize,
) -> usize
    requires some { 0 < strips.now.width }
    requires heights { AreByHeights strips.now.width (plain_extents I.whole strips.now.edges.items) }
    requires blocks { AreInBlocks
        (plain_extents I.whole strips.now.edges.items) (plain_extents I.whole strips.now.of_8.items)
        (plain_extents I.whole strips.now.of_64.items) (plain_extents I.whole strips.now.of_512.items)
        (plain_extents I.whole strips.now.of_4096.items) (plain_extents I.whole strips.now.of_32768.items) }
    requires within { at < length strips.now.edges.items }
    ensures { AreApartFrom (plain_extents I.whole strips.now.edges.items) (plain_extent I.whole of)
        at (at + result) }
{
    if begins_apart(&strips.of_32768, 32768, of, at) {
        32768
    } else if begins_apart(&strips.of_4096, 4096, of, at) {
        4096
    } else if begins_apart(&strips.of_512, 512, of, at) {
        512
    } else if is_wholly_below(of, strips.edges[at]) {
        strips.width - at % strips.width
    } else if begins_apart(&strips.of_64, 64, of, at) {
        64
    } else if begins_apart(&strips.of_8, 8, of, at) {
        8
    } else {
        0
    }
}

/// Returns whether a block of `size` boxes begins at the place and lies apart from `of`.
fn begins_apart<I: IntNumber>(blocks: &[Extent<I>], size: usize, of: Extent<I>, at: usize) -> bool
    requires some { 0 < size }
    requires within { at / size < length blocks.now }
    ensures { IsTrue result → BeginsApart (plain_extents I.whole blocks.now) size (plain_extent I.whole of) at }
{
    at % size == 0 && lie_apart(of, blocks[at / size])
}

/// Returns whether the boxes share no height or no place. It stops at the first test that tells.
fn lie_apart<I: IntNumber>(s: Extent<I>, t: Extent<I>) -> bool
    ensures { IsTrue result ↔ IsApart (plain_extent I.whole s) (plain_extent I.whole t) }
{
    is_less(s.high, t.low) || is_less(t.high, s.low) || s.last < t.first || t.last < s.first
}

/// Adds the places of the boxes from `from` up to `to` that do not lie apart from `of`.
#[inline(always)]
pub(crate) fn push_near<I: IntNumber, A: Allocator>(
    near: &mut Vec<usize, A>,
    of: Extent<I>,
    extents: &[Extent<I>],
    from: usize,
    to: usize,
) -> Result<(), AllocError>
    requires ordered { from ≤ to }
    requires within { to ≤ length extents.now }
    ensures ok { OnOk result (AreNearAdded (plain_extents I.whole extents.now) (plain_extent I.whole of)
        from to near.old.items near.new.items) }
{
    let mut at = from;
    while at < to {
        let end = on_by(at, BLOCK_SIZE, to);
        push_block(near, of, extents, at, end)?;
        at = end;
    }
    Ok(())
}

/// Adds the places of the boxes from `from` up to `to`, a block or less, that do not lie apart from `of`.
#[inline(always)]
fn push_block<I: IntNumber, A: Allocator>(
    near: &mut Vec<usize, A>,
    of: Extent<I>,
    extents: &[Extent<I>],
    from: usize,
    to: usize,
) -> Result<(), AllocError>
    requires ordered { from ≤ to }
    requires within { to ≤ length extents.now }
    requires few { to ≤ from + 8 }
    ensures ok { OnOk result (AreNearAdded (plain_extents I.whole extents.now) (plain_extent I.whole of)
        from to near.old.items near.new.items) }
{
    let mut places = [0; BLOCK_SIZE];
    let count = put_near(&mut places, of, extents, from, to);
    if count > 0 {
        near.extend_from_slice(&places[..count])?;
    }
    Ok(())
}

/// Puts the places of the boxes from `from` up to `to` that do not lie apart from `of` in front. Returns their number.
/// It has no branch for each test, since that would go wrong often.
#[inline(always)]
fn put_near<I: IntNumber>(
    places: &mut [usize],
    of: Extent<I>,
    extents: &[Extent<I>],
    from: usize,
    to: usize,
) -> usize
    requires room { to - from ≤ length places.old }
    requires ordered { from ≤ to }
    requires within { to ≤ length extents.now }
    ensures most { result ≤ length places.new }
    ensures put { AreNearAdded (plain_extents I.whole extents.now) (plain_extent I.whole of)
        from to [] (take result places.new) }
{
    let mut count = 0;
    for k in from..to {
        let extent = extents[k];
        count = put_unless(is_apart(of, extent), places, count, extent.first);
    }
    count
}

/// Returns the box of the edge's heights, and of the places from `from` to the end of a run.
fn run_of<I: IntNumber, C: EdgeCount>(e: &CountedEdge<I, C>, from: usize, end: usize) -> Extent<I>
    requires { from < end }
    ensures { plain_extent I.whole result ≡ run_of (plain_edge I.whole C.counts e.now) from end }
{
    let own = extent_of(e, from);
    Extent {
        low: own.low,
        high: own.high,
        first: from,
        last: end - 1,
    }
}
