//! The edges of the arrangement of contours in arrays.

ghost use Rattle.std.specs.Prelude.{◌≡◌, All, IfOk, IfErr, IsOkUnless, MatchResult, map};
ghost use Rattle.overlay_order.specs.Vectors.{plain_vector};
ghost use Rattle.overlay_builder.specs.GivenPaths.{subject_and_clip};
ghost use Rattle.overlay_geom.specs.Flat.{paths_in};
ghost use Rattle.overlay_geom.specs.Points.{AllInRange};
ghost use Rattle.i_overlay.specs.OneShot.{AreEdgesOfPaths, MayRefusePaths};
ghost use Rattle.polyover_calls.specs.Given.{contours_of};
ghost use Rattle.polyover_calls.specs.Listed.{AreEdgesIn, AreEdgesPut, AreListed, edge_room, flat_edges};
ghost use Rattle.polyover_calls.specs.Listed.{IsListingRefused, ListingEnds};

use crate::given::{Contours, read_both};
use crate::narrowed::{ArrayInt, narrowed_both};
use crate::numbers::{are_query_numbers, fill_of, solver_of};
use crate::status::Status;
use crate::write::write_over;
use i_overlay::fill_rule::FillRule;
use i_overlay::overlay::{IntOverlayOptions, Overlay};
use i_overlay::solver::Solver;
use i_overlay::vector::edge::DataVectorEdge;
use overlay_geom::error::OverlayError;
use overlay_geom::flat::contours::FlatContoursBuffer;
use overlay_geom::integer::OverlayInt;
use overlay_geom::number::IntNumber;
use std::alloc::{AllocError, Global};

/// Edges as arrays: of each the coordinates of both ends, and its fill bits.
#[derive(Drop)]
pub struct ListedEdges<I> {
    pub(crate) coordinates: Vec<I, Global>,
    pub(crate) fills: Vec<u8, Global>,
}

/// The edges of the arrangement of both shapes, with the sides that are filled under the fill rule with the number, put
/// into the arrays.
#[tactic(auto, using(crate::proofs::Endings::put_ends, crate::proofs::Endings::refused_ends))]
pub fn edges_arrays<I: ArrayInt>(
    alloc: Global,
    fill: u32,
    solver: u32,
    subject: &Contours<I>,
    clip: &Contours<I>,
    coordinates: &mut [I],
    fills: &mut [u8],
    count: &mut usize,
) -> Status
    ensures { ListingEnds I.whole I.limit fill solver
        (contours_of subject.now.coordinates.now subject.now.ends.now)
        (contours_of clip.now.coordinates.now clip.now.ends.now)
        (edge_room coordinates.old fills.old count.old)
        (edge_room coordinates.new fills.new count.new)
        result }
{
    match fitted_edges(alloc, fill, solver, subject, clip) {
        Ok(listed) => put(&listed, coordinates, fills, count),
        Err(status) => status,
    }
}

// Puts the edges into the arrays, and their number: `Done`; or `TooSmall`, and the arrays stay as they are.
fn put<I: IntNumber>(
    listed: &ListedEdges<I>,
    coordinates: &mut [I],
    fills: &mut [u8],
    count: &mut usize,
) -> Status
    ensures { AreEdgesPut
        (flat_edges listed.now.coordinates.items listed.now.fills.items)
        (edge_room coordinates.old fills.old count.old)
        (edge_room coordinates.new fills.new count.new)
        result }
{
    *count = listed.fills.len();
    if listed.coordinates.len() > coordinates.len() || listed.fills.len() > fills.len() {
        return Status::TooSmall;
    }
    write_over(coordinates, &listed.coordinates);
    write_over(fills, &listed.fills);
    Status::Done
}

// The edges as arrays, or why there are none.
#[tactic(auto, using(crate::proofs::Listed::contours_unlisted, crate::proofs::Listed::memory_unlisted, crate::proofs::Listed::listing_refused, crate::proofs::Listed::edges_answered))]
fn edges_listed<I: OverlayInt>(
    alloc: Global,
    fill: u32,
    solver: u32,
    subject: &Contours<I>,
    clip: &Contours<I>,
) -> Result<ListedEdges<I>, Status>
    ensures { MatchResult result
        (λ l. AreEdgesIn I.whole I.limit fill solver
        (contours_of subject.now.coordinates.now subject.now.ends.now)
        (contours_of clip.now.coordinates.now clip.now.ends.now)
        (flat_edges l.coordinates.items l.fills.items))
        (IsListingRefused I.whole I.limit fill solver
        (contours_of subject.now.coordinates.now subject.now.ends.now)
        (contours_of clip.now.coordinates.now clip.now.ends.now)) }
{
    let fill = fill_of(fill)?;
    let solver = solver_of(solver)?;
    let read = read_both(alloc, subject, clip)?;
    let edges = arranged_edges(alloc, &read.first, &read.second, fill, solver)?;
    let listed = listed(alloc, &edges)?;
    Ok(listed)
}

// The edges of the arrangement, with the sides that are filled.
fn arranged_edges<I: OverlayInt>(
    alloc: Global,
    subject: &FlatContoursBuffer<I, Global>,
    clip: &FlatContoursBuffer<I, Global>,
    fill: FillRule,
    solver: Solver,
) -> Result<Vec<DataVectorEdge<I, ()>, Global>, OverlayError>
    requires subject_in_range { All (AllInRange I.limit)
        (paths_in I.whole subject.now.points.items subject.now.ranges.items) }
    requires clip_in_range { All (AllInRange I.limit) (paths_in I.whole clip.now.points.items clip.now.ranges.items) }
    ensures edges { IfOk result (λ v. AreEdgesOfPaths solver fill
        (subject_and_clip (paths_in I.whole subject.now.points.items subject.now.ranges.items)
        (paths_in I.whole clip.now.points.items clip.now.ranges.items)) (map (plain_vector I.whole) v.items)) }
    ensures err { IfErr result (MayRefusePaths solver
        (subject_and_clip (paths_in I.whole subject.now.points.items subject.now.ranges.items)
        (paths_in I.whole clip.now.points.items clip.now.ranges.items))) }
{
    let options = IntOverlayOptions::default();
    let mut overlay = Overlay::from_subj_and_clip_custom(alloc, subject, clip, options, solver)?;
    overlay.build_separate_vectors(fill)
}

/// The edges as arrays.
pub fn listed<I: IntNumber>(
    alloc: Global,
    edges: &[DataVectorEdge<I, ()>],
) -> Result<ListedEdges<I>, AllocError>
    ensures listed { IfOk result (λ l. AreListed I.whole (map (plain_vector I.whole) edges.now)
        (flat_edges l.coordinates.items l.fills.items)) }
{
    let mut coordinates = Vec::new(alloc);
    let mut fills = Vec::new(alloc);
    for edge in edges {
        coordinates.push(edge.a.x)?;
        coordinates.push(edge.a.y)?;
        coordinates.push(edge.b.x)?;
        coordinates.push(edge.b.y)?;
        fills.push(edge.fill)?;
    }
    Ok(ListedEdges { coordinates, fills })
}

// The same, at 32 bits where all coordinates fit.
pub(crate) fn fitted_edges<I: ArrayInt>(
    alloc: Global,
    fill: u32,
    solver: u32,
    subject: &Contours<I>,
    clip: &Contours<I>,
) -> Result<ListedEdges<I>, Status>
    ensures { MatchResult result
        (λ l. AreEdgesIn I.whole I.limit fill solver
        (contours_of subject.now.coordinates.now subject.now.ends.now)
        (contours_of clip.now.coordinates.now clip.now.ends.now)
        (flat_edges l.coordinates.items l.fills.items))
        (IsListingRefused I.whole I.limit fill solver
        (contours_of subject.now.coordinates.now subject.now.ends.now)
        (contours_of clip.now.coordinates.now clip.now.ends.now)) }
{
    if are_query_numbers(fill, solver) {
        if let Some(both) = narrowed_both(alloc, subject, clip) {
            let first = Contours {
                coordinates: &both.first,
                ends: subject.ends,
            };
            let second = Contours {
                coordinates: &both.second,
                ends: clip.ends,
            };
            let listed = edges_listed(alloc, fill, solver, &first, &second)?;
            let listed = widened_edges(alloc, listed)?;
            return Ok(listed);
        }
    }
    edges_listed(alloc, fill, solver, subject, clip)
}

// The edges at 32 bits in this type. The only refusal is `Memory`.
fn widened_edges<I: ArrayInt>(
    alloc: Global,
    listed: ListedEdges<i32>,
) -> Result<ListedEdges<I>, Status>
    ensures coordinates { IfOk result (λ l. map I.whole l.coordinates.items ≡ listed.coordinates.items) }
    ensures fills { IfOk result (λ l. l.fills.items ≡ listed.fills.items) }
    ensures only { IsOkUnless result Status.Memory }
{
    let coordinates = I::widened(alloc, listed.coordinates)?;
    Ok(ListedEdges {
        coordinates,
        fills: listed.fills,
    })
}
