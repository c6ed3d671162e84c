//! Contours simplified to shapes.

ghost use Rattle.std.specs.Prelude.{◌≡◌};
ghost use Rattle.std.specs.Int.{w64, w128};
ghost use Rattle.polyover_calls.specs.Given.{contours_of};
ghost use Rattle.polyover_calls.specs.Options.{options_32, options_64};
ghost use Rattle.polyover_calls.specs.Simplified.{SimplifyingEnds};
ghost use Rattle.polyover_calls.specs.Statuses.{code_of};
ghost use Rattle.polyover_calls.specs.Written.{shape_room};
ghost use Rattle.polyover_calls.specs.declared.status.Status.{Status};

use polyover_calls::arrays::{Contours32, Contours64};
use polyover_calls::counts::Counts;
use polyover_calls::options::{Options32, Options64};
use polyover_calls::simplify::simplify_arrays;
use std::alloc::Global;

/// The shapes that the contours are simplified to, as the fill rule and options ask, put into the arrays, and their
/// counts: the code of a status.
#[unsafe(no_mangle)]
pub extern "C" fn polyover_simplify_with(
    alloc: Global,
    fill: u32,
    options: &Options64,
    contours: &Contours64,
    coordinates: &mut [i64],
    contour_ends: &mut [usize],
    shape_ends: &mut [usize],
    counts: &mut Counts,
) -> u32
    ensures { (s : Status) × SimplifyingEnds (λ z. z) 4611686018427387903 w128 (λ n. n) fill
        (options_64 options.now)
        (contours_of contours.now.coordinates.now contours.now.ends.now)
        (shape_room coordinates.old contour_ends.old shape_ends.old counts.old)
        (shape_room coordinates.new contour_ends.new shape_ends.new counts.new)
        s × (result ≡ code_of s) }
{
    simplify_arrays(
        alloc,
        fill,
        options.numbers(),
        &contours.given(),
        coordinates,
        contour_ends,
        shape_ends,
        counts,
    )
    .code()
}

/// `polyover_simplify_with` at 32 bits.
#[unsafe(no_mangle)]
pub extern "C" fn polyover_simplify_with_32(
    alloc: Global,
    fill: u32,
    options: &Options32,
    contours: &Contours32,
    coordinates: &mut [i32],
    contour_ends: &mut [usize],
    shape_ends: &mut [usize],
    counts: &mut Counts,
) -> u32
    ensures { (s : Status) × SimplifyingEnds (λ z. z) 1073741823 w64 (λ n. n) fill
        (options_32 options.now)
        (contours_of contours.now.coordinates.now contours.now.ends.now)
        (shape_room coordinates.old contour_ends.old shape_ends.old counts.old)
        (shape_room coordinates.new contour_ends.new shape_ends.new counts.new)
        s × (result ≡ code_of s) }
{
    simplify_arrays(
        alloc,
        fill,
        options.numbers(),
        &contours.given(),
        coordinates,
        contour_ends,
        shape_ends,
        counts,
    )
    .code()
}
