//! A search for the edges of bundles that an edge may meet.

ghost use Rattle.std.specs.Prelude.{◌≡◌, ◌+◌, ◌/◌, ◌<◌, List, [], All, length, cond, IsTrue, OnOk};
ghost use Rattle.overlay_geom.specs.Edges.{CountedEdge as WholeEdge};
ghost use Rattle.overlay_order.specs.Content.{plain_edge, IsHeld};
ghost use Rattle.overlay_pairs.specs.Bundles.{plain_bundle, plain_bundles, AreBundlesOf, ArePassed, BeginsBeside};
ghost use Rattle.overlay_pairs.specs.Bundles.{IsBeyondLine, IsBoxBeside, IsBoxLeft, IsBoxRight};
ghost use Rattle.overlay_pairs.specs.Bundles.{IsHeldBundle, IsPassed, LiesBeside};
ghost use Rattle.overlay_pairs.specs.Extents.{plain_extent, plain_extents};
ghost use Rattle.overlay_pairs.specs.Near.{IsSearchedBy};

use crate::bundles::{Bundle, Bundles, is_left_of_parallel};
use crate::extents::{Extent, is_apart, is_less};
use crate::fans::count_round;
use crate::near::{on_by, push_near};
use crate::strips::BLOCK_SIZE;
use overlay_geom::edge::IntEdge;
use overlay_geom::number::IntNumber;
use overlay_geom::point::IntPoint;
use overlay_order::count::EdgeCount;
use overlay_order::edge::CountedEdge;
use std::alloc::{AllocError, Allocator};

// Size of bundles from which on the box of each is tested. Of smaller bundles only large boxes are tested.
const LEAST_BOXED: usize = 64;

/// Finds the places of the edges whose boxes do not lie apart from `of`, without those in bundles that the edge e
/// misses.
pub(crate) fn find_in_bundles<I: IntNumber, C: EdgeCount, A: Allocator>(
    near: &mut Vec<usize, A>,
    bundles: &Bundles<I, A>,
    e: &CountedEdge<I, C>,
    of: Extent<I>,
) -> Result<(), AllocError>
    requires bundles { (es : List WholeEdge) × AreBundlesOf I.whole I.limit es bundles.now }
    requires one { IsHeld I.limit (plain_edge I.whole C.counts e.now) }
    requires empty { near.old.items ≡ [] }
    ensures ok { OnOk result ((es : List WholeEdge) → AreBundlesOf I.whole I.limit es bundles.now →
        IsSearchedBy (IsPassed es (plain_edge I.whole C.counts e.now) (plain_extent I.whole of))
        (plain_extents I.whole bundles.now.edges.items) (plain_extent I.whole of)
        (length bundles.now.edges.items) near.new.items) }
{
    let mut at = 0;
    while at < bundles.edges.len() {
        let next = on_by(at, count_skipped(bundles, e, of, at), bundles.edges.len());
        if at < next {
            at = next;
        } else {
            let end = on_by(at, BLOCK_SIZE, bundles.edges.len());
            push_near(near, of, &bundles.edges, at, end)?;
            at = end;
        }
    }
    Ok(())
}

/// Returns how many boxes from `at` on can be skipped, since they are those of a bundle or of a fan that lies beside e.
fn count_skipped<I: IntNumber, C: EdgeCount, A: Allocator>(
    bundles: &Bundles<I, A>,
    e: &CountedEdge<I, C>,
    of: Extent<I>,
    at: usize,
) -> usize
    requires bundles { (es : List WholeEdge) × AreBundlesOf I.whole I.limit es bundles.now }
    requires one { IsHeld I.limit (plain_edge I.whole C.counts e.now) }
    requires within { at < length bundles.now.edges.items }
    ensures { (es : List WholeEdge) → AreBundlesOf I.whole I.limit es bundles.now →
        ArePassed es (plain_edge I.whole C.counts e.now) (plain_extents I.whole bundles.now.edges.items)
        (plain_extent I.whole of) at (at + result) }
{
    let count = count_beside(bundles, e, of, at);
    if 0 < count {
        count
    } else if let Some(fans) = &bundles.fans {
        count_round(fans, e, at)
    } else {
        0
    }
}

/// Returns how many boxes from `at` on can be skipped, since they are those of a bundle that lies beside e. Bundles of
/// 64 and more begin at few places alone.
fn count_beside<I: IntNumber, C: EdgeCount, A: Allocator>(
    bundles: &Bundles<I, A>,
    e: &CountedEdge<I, C>,
    of: Extent<I>,
    at: usize,
) -> usize
    requires bundles { (es : List WholeEdge) × AreBundlesOf I.whole I.limit es bundles.now }
    requires one { IsHeld I.limit (plain_edge I.whole C.counts e.now) }
    requires within { at < length bundles.now.edges.items }
    ensures { (es : List WholeEdge) → AreBundlesOf I.whole I.limit es bundles.now →
        ArePassed es (plain_edge I.whole C.counts e.now) (plain_extents I.whole bundles.now.edges.items)
        (plain_extent I.whole of) at (at + result) }
{
    if at % 64 == 0 {
        count_beside_by_sizes(bundles, e, of, at)
    } else if begins_beside(&bundles.of_8, 8, e, of, at) {
        8
    } else {
        0
    }
}

/// Returns how many boxes from `at` on can be skipped, as `count_beside` does, by bundles of all sizes.
fn count_beside_by_sizes<I: IntNumber, C: EdgeCount, A: Allocator>(
    bundles: &Bundles<I, A>,
    e: &CountedEdge<I, C>,
    of: Extent<I>,
    at: usize,
) -> usize
    requires bundles { (es : List WholeEdge) × AreBundlesOf I.whole I.limit es bundles.now }
    requires one { IsHeld I.limit (plain_edge I.whole C.counts e.now) }
    requires within { at < length bundles.now.edges.items }
    ensures { (es : List WholeEdge) → AreBundlesOf I.whole I.limit es bundles.now →
        ArePassed es (plain_edge I.whole C.counts e.now) (plain_extents I.whole bundles.now.edges.items)
        (plain_extent I.whole of) at (at + result) }
{
    if begins_beside(&bundles.of_32768, 32768, e, of, at) {
        32768
    } else if begins_beside(&bundles.of_4096, 4096, e, of, at) {
        4096
    } else if begins_beside(&bundles.of_512, 512, e, of, at) {
        512
    } else if begins_beside(&bundles.of_64, 64, e, of, at) {
        64
    } else if begins_beside(&bundles.of_8, 8, e, of, at) {
        8
    } else {
        0
    }
}

/// Returns whether a bundle of `size` edges begins at the place and lies beside e.
fn begins_beside<I: IntNumber, C: EdgeCount>(
    bundles: &[Bundle<I>],
    size: usize,
    e: &CountedEdge<I, C>,
    of: Extent<I>,
    at: usize,
) -> bool
    requires some { 0 < size }
    requires within { at / size < length bundles.now }
    requires held { All (IsHeldBundle I.limit) (plain_bundles I.whole bundles.now) }
    requires one { IsHeld I.limit (plain_edge I.whole C.counts e.now) }
    ensures { IsTrue result → BeginsBeside (plain_bundles I.whole bundles.now) size
        (plain_edge I.whole C.counts e.now) (plain_extent I.whole of) at }
{
    at % size == 0 && lies_beside(&bundles[at / size], size, e, of)
}

/// Returns whether e misses the bundle of `size` edges: it lies apart from `of`, both ends of e lie beyond one of its
/// lines, or its box lies beside the line of e.
fn lies_beside<I: IntNumber, C: EdgeCount>(
    bundle: &Bundle<I>,
    size: usize,
    e: &CountedEdge<I, C>,
    of: Extent<I>,
) -> bool
    requires held { IsHeldBundle I.limit (plain_bundle I.whole bundle.now) }
    requires one { IsHeld I.limit (plain_edge I.whole C.counts e.now) }
    ensures { IsTrue result → LiesBeside (plain_bundle I.whole bundle.now) (plain_edge I.whole C.counts e.now)
        (plain_extent I.whole of) }
{
    is_apart(of, bundle.extent)
        || is_beyond_line(bundle, e)
        || (bundle.is_large || LEAST_BOXED <= size) && is_box_beside(bundle, e)
}

/// Returns whether both ends of e lie beyond one of the bundle's lines.
fn is_beyond_line<I: IntNumber, C: EdgeCount>(bundle: &Bundle<I>, e: &CountedEdge<I, C>) -> bool
    requires held { IsHeldBundle I.limit (plain_bundle I.whole bundle.now) }
    requires one { IsHeld I.limit (plain_edge I.whole C.counts e.now) }
    ensures { IsTrue result → IsBeyondLine (plain_bundle I.whole bundle.now) (plain_edge I.whole C.counts e.now) }
{
    is_left_of_parallel(bundle.along, bundle.left, e.a)
        && is_left_of_parallel(bundle.along, bundle.left, e.b)
        || is_left_of_parallel(bundle.along, e.a, bundle.right)
            && is_left_of_parallel(bundle.along, e.b, bundle.right)
}

/// Returns whether the bundle's box lies on one side of the line of e.
fn is_box_beside<I: IntNumber, C: EdgeCount>(bundle: &Bundle<I>, e: &CountedEdge<I, C>) -> bool
    requires held { IsHeldBundle I.limit (plain_bundle I.whole bundle.now) }
    requires one { IsHeld I.limit (plain_edge I.whole C.counts e.now) }
    ensures { IsTrue result → IsBoxBeside (plain_bundle I.whole bundle.now) (plain_edge I.whole C.counts e.now) }
{
    is_box_left(bundle, e) || is_box_right(bundle, e)
}

/// Returns whether the bundle's box lies to the left of the line of e: its corner farthest to the right does.
fn is_box_left<I: IntNumber, C: EdgeCount>(bundle: &Bundle<I>, e: &CountedEdge<I, C>) -> bool
    requires held { IsHeldBundle I.limit (plain_bundle I.whole bundle.now) }
    requires one { IsHeld I.limit (plain_edge I.whole C.counts e.now) }
    ensures { IsTrue result → IsBoxLeft (plain_bundle I.whole bundle.now) (plain_edge I.whole C.counts e.now) }
{
    let x = either(is_less(e.b.y, e.a.y), bundle.west, bundle.east);
    let corner = IntPoint::new(x, bundle.extent.low);
    is_left_of_parallel(IntEdge { a: e.a, b: e.b }, e.a, corner)
}

/// Returns whether the bundle's box lies to the right of the line of e: its corner farthest to the left does.
fn is_box_right<I: IntNumber, C: EdgeCount>(bundle: &Bundle<I>, e: &CountedEdge<I, C>) -> bool
    requires held { IsHeldBundle I.limit (plain_bundle I.whole bundle.now) }
    requires one { IsHeld I.limit (plain_edge I.whole C.counts e.now) }
    ensures { IsTrue result → IsBoxRight (plain_bundle I.whole bundle.now) (plain_edge I.whole C.counts e.now) }
{
    let x = either(is_less(e.b.y, e.a.y), bundle.east, bundle.west);
    let corner = IntPoint::new(x, bundle.extent.high);
    is_left_of_parallel(IntEdge { a: e.a, b: e.b }, corner, e.a)
}

/// Returns the first number or the second.
fn either<I: IntNumber>(is_first: bool, x: I, y: I) -> I
    ensures { I.whole result ≡ cond is_first (I.whole x) (I.whole y) }
{
    if is_first { x } else { y }
}
