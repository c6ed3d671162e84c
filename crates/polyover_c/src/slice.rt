//! Contours sliced by open paths.

ghost use Rattle.std.specs.Prelude.{◌≡◌};
ghost use Rattle.std.specs.Int.{w64, w128};
ghost use Rattle.polyover_calls.specs.Given.{contours_of};
ghost use Rattle.polyover_calls.specs.Sliced.{SlicingEnds};
ghost use Rattle.polyover_calls.specs.Statuses.{code_of};
ghost use Rattle.polyover_calls.specs.Written.{shape_room};
ghost use Rattle.polyover_calls.specs.declared.status.Status.{Status};

use polyover_calls::arrays::{Contours32, Contours64};
use polyover_calls::counts::Counts;
use polyover_calls::slice::slice_arrays;
use std::alloc::Global;

/// Puts the shapes into which the open lines slice what the subject fills under the fill rule into the arrays, with
/// their counts. It answers the code of a status.
#[unsafe(no_mangle)]
pub extern "C" fn polyover_slice(
    alloc: Global,
    fill: u32,
    solver: u32,
    subject: &Contours64,
    lines: &Contours64,
    coordinates: &mut [i64],
    contour_ends: &mut [usize],
    shape_ends: &mut [usize],
    counts: &mut Counts,
) -> u32
    ensures { (s : Status) × SlicingEnds (λ z. z) 4611686018427387903 w128 fill solver
        (contours_of subject.now.coordinates.now subject.now.ends.now)
        (contours_of lines.now.coordinates.now lines.now.ends.now)
        (shape_room coordinates.old contour_ends.old shape_ends.old counts.old)
        (shape_room coordinates.new contour_ends.new shape_ends.new counts.new)
        s × (result ≡ code_of s) }
{
    slice_arrays(
        alloc,
        fill,
        solver,
        &subject.given(),
        &lines.given(),
        coordinates,
        contour_ends,
        shape_ends,
        counts,
    )
    .code()
}

/// `polyover_slice` at 32 bits.
#[unsafe(no_mangle)]
pub extern "C" fn polyover_slice_32(
    alloc: Global,
    fill: u32,
    solver: u32,
    subject: &Contours32,
    lines: &Contours32,
    coordinates: &mut [i32],
    contour_ends: &mut [usize],
    shape_ends: &mut [usize],
    counts: &mut Counts,
) -> u32
    ensures { (s : Status) × SlicingEnds (λ z. z) 1073741823 w64 fill solver
        (contours_of subject.now.coordinates.now subject.now.ends.now)
        (contours_of lines.now.coordinates.now lines.now.ends.now)
        (shape_room coordinates.old contour_ends.old shape_ends.old counts.old)
        (shape_room coordinates.new contour_ends.new shape_ends.new counts.new)
        s × (result ≡ code_of s) }
{
    slice_arrays(
        alloc,
        fill,
        solver,
        &subject.given(),
        &lines.given(),
        coordinates,
        contour_ends,
        shape_ends,
        counts,
    )
    .code()
}
