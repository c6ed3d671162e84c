//! Contours sliced by open paths, as options ask.

ghost use Rattle.std.specs.Int.{w64, w128};
ghost use Rattle.polyover_calls.specs.Given.{contours_of};
ghost use Rattle.polyover_calls.specs.Held.{IsGiven, arrays_at_32, arrays_at_64};
ghost use Rattle.polyover_slices.specs.Asked.{AskedSlicesAreHeld};
ghost use Rattle.polyover_slices.specs.Options.{slice_options_32, slice_options_64};

use polyover_calls::arrays::{Contours32, Contours64};
use polyover_calls::held::{Held32, Held64};
use polyover_slices::asked::asked_slices_held;
use polyover_slices::options::{SliceOptions32, SliceOptions64};
use std::alloc::Global;

/// Hands out the shapes into which the open lines slice what the subject fills under the fill rule, as the options ask.
#[unsafe(no_mangle)]
pub extern "C" fn polyover_slice_custom_result_with<'a>(
    alloc: Global,
    fill: u32,
    options: &SliceOptions64,
    subject: &Contours64,
    lines: &Contours64,
    held: &mut Held64<'a>,
) -> u32
    ensures { IsGiven (AskedSlicesAreHeld (λ z. z) 4611686018427387903 w128 (λ n. n) fill
        (slice_options_64 options.now)
        (contours_of subject.now.coordinates.now subject.now.ends.now)
        (contours_of lines.now.coordinates.now lines.now.ends.now))
        (arrays_at_64 held.new) result }
{
    held.give(&asked_slices_held(
        alloc,
        fill,
        options.numbers(),
        &subject.given(),
        &lines.given(),
    ))
}

/// `polyover_slice_custom_result_with` at 32 bits.
#[unsafe(no_mangle)]
pub extern "C" fn polyover_slice_custom_result_with_32<'a>(
    alloc: Global,
    fill: u32,
    options: &SliceOptions32,
    subject: &Contours32,
    lines: &Contours32,
    held: &mut Held32<'a>,
) -> u32
    ensures { IsGiven (AskedSlicesAreHeld (λ z. z) 1073741823 w64 (λ n. n) fill
        (slice_options_32 options.now)
        (contours_of subject.now.coordinates.now subject.now.ends.now)
        (contours_of lines.now.coordinates.now lines.now.ends.now))
        (arrays_at_32 held.new) result }
{
    held.give(&asked_slices_held(
        alloc,
        fill,
        options.numbers(),
        &subject.given(),
        &lines.given(),
    ))
}
