//! The shapes into which open paths slice contours, of arrays.

ghost use Rattle.std.specs.Prelude.{MatchResult};
ghost use Rattle.polyover_calls.specs.Given.{contours_of};
ghost use Rattle.polyover_calls.specs.Sliced.{AreSlices, IsSlicingRefused, SlicingEnds};
ghost use Rattle.polyover_calls.specs.Written.{IsFlat, flat_shapes, shape_room};

use crate::answer::{Answer, flattened, put, widened};
use crate::counts::Counts;
use crate::given::{Contours, read_both};
use crate::narrowed::{ArrayInt, narrowed_both};
use crate::numbers::{are_query_numbers, fill_of, solver_of};
use crate::status::Status;
use i_overlay::string::slice::IntSlice;
use overlay_geom::integer::OverlayInt;
use std::alloc::Global;

/// The shapes into which the lines, which are open paths, slice the subject, put into the arrays.
#[tactic(auto, using(crate::proofs::Endings::put_ends, crate::proofs::Endings::refused_ends))]
pub fn slice_arrays<I: ArrayInt>(
    alloc: Global,
    fill: u32,
    solver: u32,
    subject: &Contours<I>,
    lines: &Contours<I>,
    coordinates: &mut [I],
    contour_ends: &mut [usize],
    shape_ends: &mut [usize],
    counts: &mut Counts,
) -> Status
    ensures { SlicingEnds I.whole I.limit I.Wide.width fill solver
        (contours_of subject.now.coordinates.now subject.now.ends.now)
        (contours_of lines.now.coordinates.now lines.now.ends.now)
        (shape_room coordinates.old contour_ends.old shape_ends.old counts.old)
        (shape_room coordinates.new contour_ends.new shape_ends.new counts.new)
        result }
{
    match fitted_slices(alloc, fill, solver, subject, lines) {
        Ok(answer) => put(&answer, coordinates, contour_ends, shape_ends, counts),
        Err(status) => status,
    }
}

// The shapes into which the lines slice the subject, as arrays.
#[tactic(auto, using(crate::proofs::Sliced::contours_unsliced, crate::proofs::Sliced::memory_refused, crate::proofs::Sliced::slicing_refused, crate::proofs::Sliced::subject_sliced))]
fn slice_answer<I: OverlayInt>(
    alloc: Global,
    fill: u32,
    solver: u32,
    subject: &Contours<I>,
    lines: &Contours<I>,
) -> Result<Answer<I>, Status>
    ensures { MatchResult result
        (λ a. IsFlat (AreSlices I.whole I.limit I.Wide.width fill solver
        (contours_of subject.now.coordinates.now subject.now.ends.now)
        (contours_of lines.now.coordinates.now lines.now.ends.now)) I.whole
        (flat_shapes a.coordinates.items a.contour_ends.items a.shape_ends.items))
        (IsSlicingRefused I.whole I.limit fill solver
        (contours_of subject.now.coordinates.now subject.now.ends.now)
        (contours_of lines.now.coordinates.now lines.now.ends.now)) }
{
    let fill = fill_of(fill)?;
    let solver = solver_of(solver)?;
    let read = read_both(alloc, subject, lines)?;
    let shapes = read
        .first
        .slice_by_source_with_solver(alloc, &read.second, fill, solver)?;
    let answer = flattened(alloc, &shapes)?;
    Ok(answer)
}

// The same, at 32 bits where all coordinates fit.
pub(crate) fn fitted_slices<I: ArrayInt>(
    alloc: Global,
    fill: u32,
    solver: u32,
    subject: &Contours<I>,
    lines: &Contours<I>,
) -> Result<Answer<I>, Status>
    ensures { MatchResult result
        (λ a. IsFlat (AreSlices I.whole I.limit I.Wide.width fill solver
        (contours_of subject.now.coordinates.now subject.now.ends.now)
        (contours_of lines.now.coordinates.now lines.now.ends.now)) I.whole
        (flat_shapes a.coordinates.items a.contour_ends.items a.shape_ends.items))
        (IsSlicingRefused I.whole I.limit fill solver
        (contours_of subject.now.coordinates.now subject.now.ends.now)
        (contours_of lines.now.coordinates.now lines.now.ends.now)) }
{
    if are_query_numbers(fill, solver) {
        if let Some(both) = narrowed_both(alloc, subject, lines) {
            let first = Contours {
                coordinates: &both.first,
                ends: subject.ends,
            };
            let second = Contours {
                coordinates: &both.second,
                ends: lines.ends,
            };
            let answer = slice_answer(alloc, fill, solver, &first, &second)?;
            let answer = widened(alloc, answer)?;
            return Ok(answer);
        }
    }
    slice_answer(alloc, fill, solver, subject, lines)
}
