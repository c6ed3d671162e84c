//! The boxes of the edges or points of a list, in strips of neighbours, and the boxes of blocks of edges.

ghost use Rattle.std.specs.Prelude.{◌≡◌, ◌<◌, ◌≤ℤ◌, List, [], ◌++◌, length, All, AllPairs, IfOk, IfSome, OnOk};
ghost use Rattle.std.specs.List.Sorted.{IsPermutation};
ghost use Rattle.overlay_geom.specs.Points.{plain_points};
ghost use Rattle.overlay_order.specs.Content.{plain_edges, IsAscending, IsHeld};
ghost use Rattle.overlay_pairs.specs.Extents.{extents_of, extents_of_points, plain_extents, AreBlocks, AreByHeights};
ghost use Rattle.overlay_pairs.specs.Extents.{AreAtPlaces, AreInStrips};
ghost use Rattle.overlay_pairs.specs.PointStrips.{points_of, AreStripsOf};
ghost use Rattle.overlay_pairs.specs.Strips.{AreHeldStripsOf};
ghost use Rattle.overlay_pairs.specs.declared.extents.Extent.{Extent};

use crate::bundles::{Bundles, bundles_of, bundles_with_fans};
use crate::extents::{Extent, extent_of, extent_of_point, joined};
use crate::sample::sample_of;
use crate::spans::length_of_runs;
use overlay_geom::number::IntNumber;
use overlay_geom::point::IntPoint;
use overlay_order::count::EdgeCount;
use overlay_order::edge::CountedEdge;
use std::alloc::{AllocError, Allocator};

// Least and greatest number of neighbours in a strip.
const LEAST_WIDTH: usize = 64;

const GREATEST_WIDTH: usize = 65536;
/// Size of the sample for the length of runs.
pub const SAMPLES: usize = 64;
// Number of edges up to which no strips are made where runs are short, and the length below which runs are short on
// average.
const MOST_EDGES: usize = 2048;

const SHORT_RUN: usize = 64;
/// Number of boxes in a least block. A search tests the boxes of such a block one by one.
pub(crate) const BLOCK_SIZE: usize = 8;

/// The boxes of the edges of a list, strip by strip, and the boxes of the blocks of 8, 64, 512, 4096 and 32768 of them.
/// A block of n begins at each multiple of n. In a strip the boxes are sorted by their least heights, so boxes of a
/// block are close together.
#[derive(Drop)]
pub struct Strips<I: Copy, A: Allocator> {
    /// Number of neighbours in a strip.
    pub width: usize,
    /// The boxes of the edges.
    pub edges: Vec<Extent<I>, A>,
    /// The boxes of each 8 edges.
    pub of_8: Vec<Extent<I>, A>,
    /// The boxes of each 64 edges.
    pub of_64: Vec<Extent<I>, A>,
    /// The boxes of each 512 edges.
    pub of_512: Vec<Extent<I>, A>,
    /// The boxes of each 4096 edges.
    pub of_4096: Vec<Extent<I>, A>,
    /// The boxes of each 32768 edges.
    pub of_32768: Vec<Extent<I>, A>,
    /// The bundles of the edges, where a search by boxes alone would find many edges that an edge does not meet.
    pub bundles: Option<Bundles<I, A>>,
}

/// Makes the strips of the edges, with bundles where a search by boxes alone would find many edges that an edge does
/// not meet. It makes none where the edges are not many and their runs are short.
pub fn strips_of<I: IntNumber, C: EdgeCount, A: Allocator + Clone>(
    alloc: A,
    edges: &[CountedEdge<I, C>],
) -> Result<Option<Strips<I, A>>, AllocError>
    requires held { All (IsHeld I.limit) (plain_edges I.whole C.counts edges.now) }
    requires ascending { IsAscending (plain_edges I.whole C.counts edges.now) }
    ensures ok { IfOk result (λ made.
        IfSome made (AreHeldStripsOf I.whole I.limit (plain_edges I.whole C.counts edges.now))) }
{
    let runs = length_of_runs(edges, SAMPLES);
    if edges.len() <= MOST_EDGES && runs < SHORT_RUN * SAMPLES {
        return Ok(None);
    }
    let strips = strips_of_boxes(alloc.clone()?, edges, runs)?;
    let sample = sample_of(alloc.clone()?, edges, &strips)?;
    if sample.misses_many {
        let bundles = bundles_of(alloc, edges)?;
        Ok(Some(Strips {
            bundles: Some(bundles),
            ..strips
        }))
    } else if sample.shares_many {
        let bundles = bundles_with_fans(alloc, edges)?;
        Ok(Some(Strips { bundles, ..strips }))
    } else {
        Ok(Some(strips))
    }
}

/// Makes the strips of the edges, without bundles. The runs of a sample of edges have the given length in all.
fn strips_of_boxes<I: IntNumber, C: EdgeCount, A: Allocator + Clone>(
    alloc: A,
    edges: &[CountedEdge<I, C>],
    runs: usize,
) -> Result<Strips<I, A>, AllocError>
    requires held { All (IsHeld I.limit) (plain_edges I.whole C.counts edges.now) }
    requires ascending { IsAscending (plain_edges I.whole C.counts edges.now) }
    ensures ok { IfOk result (AreHeldStripsOf I.whole I.limit (plain_edges I.whole C.counts edges.now)) }
{
    let width = strip_width(runs);
    let extents = edges_by_strips(alloc.clone()?, edges, width)?;
    let of_8 = extents_of_blocks(alloc.clone()?, &extents)?;
    let of_64 = extents_of_blocks(alloc.clone()?, &of_8)?;
    let of_512 = extents_of_blocks(alloc.clone()?, &of_64)?;
    let of_4096 = extents_of_blocks(alloc.clone()?, &of_512)?;
    let of_32768 = extents_of_blocks(alloc, &of_4096)?;
    Ok(Strips {
        width,
        edges: extents,
        of_8,
        of_64,
        of_512,
        of_4096,
        of_32768,
        bundles: None,
    })
}

/// Returns the width of strips, in neighbours: the longer the runs of the edges, the wider. A search visits each strip
/// of an edge's run, and skips boxes at other heights in it.
pub fn strip_width(runs: usize) -> usize
    ensures { 0 < result }
{
    let mut width = LEAST_WIDTH;
    while width < GREATEST_WIDTH && width * width / 4 < runs {
        width *= 2;
    }
    width
}

/// Returns the boxes of the edges, strip by strip, and in each strip sorted by their least heights.
fn edges_by_strips<I: IntNumber, C: EdgeCount, A: Allocator + Clone>(
    alloc: A,
    edges: &[CountedEdge<I, C>],
    width: usize,
) -> Result<Vec<Extent<I>, A>, AllocError>
    requires { 0 < width }
    ensures permutation { IfOk result (λ sorted. IsPermutation
        (extents_of (plain_edges I.whole C.counts edges.now)) (plain_extents I.whole sorted.items)) }
    ensures strips { IfOk result (λ sorted. AreInStrips width (plain_extents I.whole sorted.items)) }
    ensures heights { IfOk result (λ sorted. AreByHeights width (plain_extents I.whole sorted.items)) }
{
    let extents = extents_of_edges(alloc.clone()?, edges)?;
    by_strips(alloc, &extents, width)
}

/// Returns the points strip by strip, and in each strip sorted by their heights.
pub fn points_by_strips<I: IntNumber, A: Allocator + Clone>(
    alloc: A,
    points: &[IntPoint<I>],
    width: usize,
) -> Result<Vec<IntPoint<I>, A>, AllocError>
    requires { 0 < width }
    ensures ok { IfOk result (λ sorted.
        AreStripsOf (plain_points I.whole points.now) width (plain_points I.whole sorted.items)) }
{
    let extents = extents_of_points(alloc.clone()?, points)?;
    let sorted = by_strips(alloc.clone()?, &extents, width)?;
    points_of(alloc, points, &sorted)
}

/// Returns the points at the places of the boxes.
fn points_of<I: IntNumber, A: Allocator>(
    alloc: A,
    points: &[IntPoint<I>],
    boxes: &[Extent<I>],
) -> Result<Vec<IntPoint<I>, A>, AllocError>
    requires { All (λ s. s.first < length points.now) boxes.now }
    ensures ok { IfOk result (λ taken. plain_points I.whole taken.items
        ≡ points_of (plain_points I.whole points.now) (plain_extents I.whole boxes.now)) }
{
    let mut taken = Vec::with_capacity(alloc, boxes.len())?;
    for k in 0..boxes.len() {
        taken.push(points[boxes[k].first])?;
    }
    Ok(taken)
}

/// Returns the boxes of the edges, each at its place.
pub(crate) fn extents_of_edges<I: IntNumber, C: EdgeCount, A: Allocator>(
    alloc: A,
    edges: &[CountedEdge<I, C>],
) -> Result<Vec<Extent<I>, A>, AllocError>
    ensures ok { IfOk result (λ extents.
        plain_extents I.whole extents.items ≡ extents_of (plain_edges I.whole C.counts edges.now)) }
{
    let mut extents = Vec::with_capacity(alloc, edges.len())?;
    for (place, e) in edges.iter().enumerate() {
        extents.push(extent_of(e, place))?;
    }
    Ok(extents)
}

/// Returns the boxes of the points, each at its place.
fn extents_of_points<I: IntNumber, A: Allocator>(
    alloc: A,
    points: &[IntPoint<I>],
) -> Result<Vec<Extent<I>, A>, AllocError>
    ensures ok { IfOk result (λ extents.
        plain_extents I.whole extents.items ≡ extents_of_points (plain_points I.whole points.now)) }
{
    let mut extents = Vec::with_capacity(alloc, points.len())?;
    for (place, v) in points.iter().enumerate() {
        extents.push(extent_of_point(*v, place))?;
    }
    Ok(extents)
}

/// Sorts the boxes strip by strip, in each strip by their least heights. Each box is at its place.
fn by_strips<I: IntNumber, A: Allocator + Clone>(
    alloc: A,
    extents: &[Extent<I>],
    width: usize,
) -> Result<Vec<Extent<I>, A>, AllocError>
    requires some { 0 < width }
    requires places { AreAtPlaces (plain_extents I.whole extents.now) }
    ensures permutation { IfOk result (λ sorted. IsPermutation
        (plain_extents I.whole extents.now) (plain_extents I.whole sorted.items)) }
    ensures strips { IfOk result (λ sorted. AreInStrips width (plain_extents I.whole sorted.items)) }
    ensures heights { IfOk result (λ sorted. AreByHeights width (plain_extents I.whole sorted.items)) }
{
    let mut sorted = Vec::with_capacity(alloc.clone()?, extents.len())?;
    let mut strip = Vec::with_capacity(alloc, width.min(extents.len()))?;
    for extent in extents {
        strip.push(*extent)?;
        if strip.len() == width {
            close_strip(&mut sorted, &mut strip)?;
        }
    }
    close_strip(&mut sorted, &mut strip)?;
    Ok(sorted)
}

/// Moves the boxes of a strip behind the others, sorted by their least heights.
fn close_strip<I: IntNumber, A: Allocator>(
    extents: &mut Vec<Extent<I>, A>,
    strip: &mut Vec<Extent<I>, A>,
) -> Result<(), AllocError>
    ensures ok { OnOk result ((sorted : List (Extent I)) × IsPermutation strip.old.items sorted
        × AllPairs (λ s t. I.whole s.low ≤ℤ I.whole t.low) sorted
        × (extents.new.items ≡ extents.old.items ++ sorted)) }
    ensures emptied { OnOk result (strip.new.items ≡ []) }
{
    strip.sort_by(|s, t| s.low.compare(t.low))?;
    extents.append(strip)?;
    Ok(())
}

/// Returns the box of each block.
fn extents_of_blocks<I: IntNumber, A: Allocator>(
    alloc: A,
    extents: &[Extent<I>],
) -> Result<Vec<Extent<I>, A>, AllocError>
    ensures ok { IfOk result (λ blocks.
        AreBlocks 8 (plain_extents I.whole extents.now) (plain_extents I.whole blocks.items)) }
{
    let mut blocks = Vec::new(alloc);
    for (i, extent) in extents.iter().enumerate() {
        if i % BLOCK_SIZE == 0 {
            blocks.push(*extent)?;
        } else {
            let last = i / BLOCK_SIZE;
            blocks[last] = joined(blocks[last], *extent);
        }
    }
    Ok(blocks)
}
