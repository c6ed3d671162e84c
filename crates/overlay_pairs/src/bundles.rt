//! Bundles of edges. The edges of a bundle lie between two parallel lines.

ghost use Rattle.std.specs.Prelude.{◌≡◌, ◌<◌, All, IfOk, IfSome};
ghost use Rattle.std.specs.List.Sorted.{IsPermutation};
ghost use Rattle.overlay_geom.specs.Points.{plain_point, InRange};
ghost use Rattle.overlay_geom.specs.Resolved.{plain_edge as plain_line};
ghost use Rattle.overlay_order.specs.Content.{plain_edge, plain_edges, IsHeld};
ghost use Rattle.overlay_pairs.specs.Bundles.{is_left_of_parallel, plain_bundle, plain_bundles};
ghost use Rattle.overlay_pairs.specs.Bundles.{AreBundlesOf, AreHeldBundles, HoldsEdge, IsHeldBundle};
ghost use Rattle.overlay_pairs.specs.Bundles.{IsReached, IsWidened};
ghost use Rattle.overlay_pairs.specs.Extents.{extent_of, extents_of, plain_extent, plain_extents};

use crate::extents::{Extent, joined, ordered};
use crate::fans::{Fans, fans_of};
use crate::lines::{by_lines, size_of};
use overlay_geom::edge::IntEdge;
use overlay_geom::number::{IntNumber, WideIntNumber};
use overlay_geom::point::IntPoint;
use overlay_order::count::EdgeCount;
use overlay_order::edge::CountedEdge;
use std::alloc::{AllocError, Allocator};

// How many times as large as an edge a much larger box is.
const TIMES_LARGER: u64 = 4;

/// Some edges of a list: their box, and two parallel lines between which they lie.
#[derive(Clone, Copy)]
pub struct Bundle<I> {
    /// The box of the edges, by heights and places.
    pub extent: Extent<I>,
    /// The least x-coordinate.
    pub west: I,
    /// The greatest x-coordinate.
    pub east: I,
    /// The size of the longest edge, in x or in y.
    pub longest: u64,
    /// Whether the box is much larger than the longest edge. A search tests such boxes in bundles of each size.
    pub is_large: bool,
    /// An edge in the direction of both lines.
    pub along: IntEdge<I>,
    /// A point of the left line. No end of the edges lies to the left of this line.
    pub left: IntPoint<I>,
    /// A point of the right line. No end of the edges lies to the right of this line.
    pub right: IntPoint<I>,
}

/// The boxes of the edges of a list, in the order of their lines, and the bundles of each 8, 64, 512, 4096 and 32768 of
/// them. A bundle of n begins at each multiple of n.
#[derive(Drop)]
pub struct Bundles<I: Copy, A: Allocator> {
    /// The boxes of the edges.
    pub edges: Vec<Extent<I>, A>,
    /// The bundles of each 8 edges.
    pub of_8: Vec<Bundle<I>, A>,
    /// The bundles of each 64 edges.
    pub of_64: Vec<Bundle<I>, A>,
    /// The bundles of each 512 edges.
    pub of_512: Vec<Bundle<I>, A>,
    /// The bundles of each 4096 edges.
    pub of_4096: Vec<Bundle<I>, A>,
    /// The bundles of each 32768 edges.
    pub of_32768: Vec<Bundle<I>, A>,
    /// The fans of the edges, where many share an end.
    pub fans: Option<Fans<I, A>>,
}

/// Makes the bundles of the edges, without fans.
pub(crate) fn bundles_of<I: IntNumber, C: EdgeCount, A: Allocator + Clone>(
    alloc: A,
    edges: &[CountedEdge<I, C>],
) -> Result<Bundles<I, A>, AllocError>
    requires held { All (IsHeld I.limit) (plain_edges I.whole C.counts edges.now) }
    ensures ok { IfOk result (AreBundlesOf I.whole I.limit (plain_edges I.whole C.counts edges.now)) }
{
    let boxes = by_lines(alloc.clone()?, edges)?;
    let of_8 = bundles_of_size(alloc.clone()?, edges, &boxes, 8)?;
    let of_64 = bundles_of_size(alloc.clone()?, edges, &boxes, 64)?;
    let of_512 = bundles_of_size(alloc.clone()?, edges, &boxes, 512)?;
    let of_4096 = bundles_of_size(alloc.clone()?, edges, &boxes, 4096)?;
    let of_32768 = bundles_of_size(alloc, edges, &boxes, 32768)?;
    Ok(Bundles {
        edges: boxes,
        of_8,
        of_64,
        of_512,
        of_4096,
        of_32768,
        fans: None,
    })
}

/// Makes the bundles of the edges, with fans. It makes none if few of the edges share an end.
pub(crate) fn bundles_with_fans<I: IntNumber, C: EdgeCount, A: Allocator + Clone>(
    alloc: A,
    edges: &[CountedEdge<I, C>],
) -> Result<Option<Bundles<I, A>>, AllocError>
    requires held { All (IsHeld I.limit) (plain_edges I.whole C.counts edges.now) }
    ensures ok { IfOk result (λ made.
        IfSome made (AreBundlesOf I.whole I.limit (plain_edges I.whole C.counts edges.now))) }
{
    let bundles = bundles_of(alloc.clone()?, edges)?;
    if let Some(fans) = fans_of(alloc, edges, &bundles.edges)? {
        Ok(Some(Bundles {
            fans: Some(fans),
            ..bundles
        }))
    } else {
        Ok(None)
    }
}

/// Returns the bundle of the edges of each `size` boxes.
fn bundles_of_size<I: IntNumber, C: EdgeCount, A: Allocator>(
    alloc: A,
    edges: &[CountedEdge<I, C>],
    boxes: &[Extent<I>],
    size: usize,
) -> Result<Vec<Bundle<I>, A>, AllocError>
    requires some { 0 < size }
    requires held { All (IsHeld I.limit) (plain_edges I.whole C.counts edges.now) }
    requires boxes { IsPermutation
        (extents_of (plain_edges I.whole C.counts edges.now)) (plain_extents I.whole boxes.now) }
    ensures ok { IfOk result (λ bundles. AreHeldBundles I.limit size (plain_edges I.whole C.counts edges.now)
        (plain_extents I.whole boxes.now) (plain_bundles I.whole bundles.items)) }
{
    let mut bundles = Vec::new(alloc);
    for (k, extent) in boxes.iter().enumerate() {
        let e = &edges[extent.first];
        if k % size == 0 {
            bundles.push(bundle_of(e, *extent))?;
        } else {
            let last = k / size;
            bundles[last] = widened(bundles[last], e, *extent);
        }
    }
    Ok(bundles)
}

/// Returns the bundle of an edge in its box.
fn bundle_of<I: IntNumber, C: EdgeCount>(e: &CountedEdge<I, C>, extent: Extent<I>) -> Bundle<I>
    requires one { IsHeld I.limit (plain_edge I.whole C.counts e.now) }
    requires own { plain_extent I.whole extent ≡ extent_of (plain_edge I.whole C.counts e.now) extent.first }
    ensures held { IsHeldBundle I.limit (plain_bundle I.whole result) }
    ensures holds { HoldsEdge (plain_bundle I.whole result) (plain_extent I.whole extent)
        (plain_edge I.whole C.counts e.now) }
{
    Bundle {
        extent,
        west: e.a.x,
        east: e.b.x,
        longest: size_of(e.a, e.b),
        is_large: false,
        along: IntEdge { a: e.a, b: e.b },
        left: e.a,
        right: e.a,
    }
}

/// Returns the bundle with one edge more, in its box.
fn widened<I: IntNumber, C: EdgeCount>(
    bundle: Bundle<I>,
    e: &CountedEdge<I, C>,
    extent: Extent<I>,
) -> Bundle<I>
    requires held { IsHeldBundle I.limit (plain_bundle I.whole bundle) }
    requires one { IsHeld I.limit (plain_edge I.whole C.counts e.now) }
    requires own { plain_extent I.whole extent ≡ extent_of (plain_edge I.whole C.counts e.now) extent.first }
    ensures held { IsHeldBundle I.limit (plain_bundle I.whole result) }
    ensures holds { HoldsEdge (plain_bundle I.whole result) (plain_extent I.whole extent)
        (plain_edge I.whole C.counts e.now) }
    ensures widened { IsWidened (plain_bundle I.whole bundle) (plain_bundle I.whole result) }
{
    let reached = reached(reached(bundle, e.a), e.b);
    let joined = joined(bundle.extent, extent);
    let (west, _) = ordered(bundle.west, e.a.x);
    let (_, east) = ordered(bundle.east, e.b.x);
    let size = size_of(
        IntPoint::new(west, joined.low),
        IntPoint::new(east, joined.high),
    );
    let longest = bundle.longest.max(size_of(e.a, e.b));
    Bundle {
        extent: joined,
        west,
        east,
        longest,
        is_large: longest < size / TIMES_LARGER,
        ..reached
    }
}

/// Returns the bundle with its lines moved apart, if need be, so that the point lies between them.
fn reached<I: IntNumber>(bundle: Bundle<I>, v: IntPoint<I>) -> Bundle<I>
    requires held { IsHeldBundle I.limit (plain_bundle I.whole bundle) }
    requires point { InRange I.limit (plain_point I.whole v) }
    ensures held { IsHeldBundle I.limit (plain_bundle I.whole result) }
    ensures reached { IsReached (plain_bundle I.whole bundle) (plain_point I.whole v) (plain_bundle I.whole result) }
{
    let is_beyond_left = is_left_of_parallel(bundle.along, bundle.left, v);
    let is_beyond_right = is_left_of_parallel(bundle.along, v, bundle.right);
    Bundle {
        left: if is_beyond_left { v } else { bundle.left },
        right: if is_beyond_right { v } else { bundle.right },
        ..bundle
    }
}

/// Returns whether q lies to the left of the parallel to an edge through p, in the edge's direction.
pub(crate) fn is_left_of_parallel<I: IntNumber>(
    along: IntEdge<I>,
    p: IntPoint<I>,
    q: IntPoint<I>,
) -> bool
    requires a { InRange I.limit (plain_point I.whole along.a) }
    requires b { InRange I.limit (plain_point I.whole along.b) }
    requires p { InRange I.limit (plain_point I.whole p) }
    requires q { InRange I.limit (plain_point I.whole q) }
    ensures { result ≡ is_left_of_parallel (plain_line I.whole along) (plain_point I.whole p) (plain_point I.whole q) }
{
    (along.b - along.a).cross_product(q - p).sign().is_gt()
}
