//! Clips of open paths.

ghost use Rattle.std.specs.Prelude.{◌≡◌};
ghost use Rattle.polyover_calls.specs.Clipped.{ClipEnds};
ghost use Rattle.polyover_calls.specs.Given.{contours_of};
ghost use Rattle.polyover_calls.specs.Statuses.{code_of};
ghost use Rattle.polyover_calls.specs.WrittenPaths.{path_room};
ghost use Rattle.polyover_calls.specs.declared.status.Status.{Status};

use polyover_calls::arrays::{Contours32, Contours64};
use polyover_calls::clip::clip_arrays;
use polyover_calls::clip_options::ClipOptions;
use polyover_calls::path_counts::PathCounts;
use std::alloc::Global;

/// Puts the parts of the open lines that a clip keeps, as the options ask, into the arrays, with their counts. The
/// shape is what the contours fill under the fill rule. It answers the code of a status.
#[unsafe(no_mangle)]
pub extern "C" fn polyover_clip_with(
    alloc: Global,
    fill: u32,
    options: &ClipOptions,
    shape: &Contours64,
    lines: &Contours64,
    coordinates: &mut [i64],
    ends: &mut [usize],
    counts: &mut PathCounts,
) -> u32
    ensures { (s : Status) × ClipEnds (λ z. z) 4611686018427387903 fill options.now
        (contours_of shape.now.coordinates.now shape.now.ends.now)
        (contours_of lines.now.coordinates.now lines.now.ends.now)
        (path_room coordinates.old ends.old counts.old)
        (path_room coordinates.new ends.new counts.new)
        s × (result ≡ code_of s) }
{
    clip_arrays(
        alloc,
        fill,
        *options,
        &shape.given(),
        &lines.given(),
        coordinates,
        ends,
        counts,
    )
    .code()
}

/// `polyover_clip_with` at 32 bits.
#[unsafe(no_mangle)]
pub extern "C" fn polyover_clip_with_32(
    alloc: Global,
    fill: u32,
    options: &ClipOptions,
    shape: &Contours32,
    lines: &Contours32,
    coordinates: &mut [i32],
    ends: &mut [usize],
    counts: &mut PathCounts,
) -> u32
    ensures { (s : Status) × ClipEnds (λ z. z) 1073741823 fill options.now
        (contours_of shape.now.coordinates.now shape.now.ends.now)
        (contours_of lines.now.coordinates.now lines.now.ends.now)
        (path_room coordinates.old ends.old counts.old)
        (path_room coordinates.new ends.new counts.new)
        s × (result ≡ code_of s) }
{
    clip_arrays(
        alloc,
        fill,
        *options,
        &shape.given(),
        &lines.given(),
        coordinates,
        ends,
        counts,
    )
    .code()
}
