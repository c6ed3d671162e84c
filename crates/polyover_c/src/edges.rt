//! The edges of an arrangement.

ghost use Rattle.std.specs.Prelude.{◌≡◌};
ghost use Rattle.polyover_calls.specs.Given.{contours_of};
ghost use Rattle.polyover_calls.specs.Listed.{ListingEnds, edge_room};
ghost use Rattle.polyover_calls.specs.Statuses.{code_of};
ghost use Rattle.polyover_calls.specs.declared.status.Status.{Status};

use polyover_calls::arrays::{Contours32, Contours64};
use polyover_calls::edges::edges_arrays;
use std::alloc::Global;

/// The edges of the arrangement of the subject and the clip, with the sides that are filled under the fill rule, put
/// into the arrays, and their number: the code of a status.
#[unsafe(no_mangle)]
pub extern "C" fn polyover_edges_with(
    alloc: Global,
    fill: u32,
    solver: u32,
    subject: &Contours64,
    clip: &Contours64,
    coordinates: &mut [i64],
    fills: &mut [u8],
    count: &mut usize,
) -> u32
    ensures { (s : Status) × ListingEnds (λ z. z) 4611686018427387903 fill solver
        (contours_of subject.now.coordinates.now subject.now.ends.now)
        (contours_of clip.now.coordinates.now clip.now.ends.now)
        (edge_room coordinates.old fills.old count.old)
        (edge_room coordinates.new fills.new count.new)
        s × (result ≡ code_of s) }
{
    edges_arrays(
        alloc,
        fill,
        solver,
        &subject.given(),
        &clip.given(),
        coordinates,
        fills,
        count,
    )
    .code()
}

/// `polyover_edges_with` at 32 bits.
#[unsafe(no_mangle)]
pub extern "C" fn polyover_edges_with_32(
    alloc: Global,
    fill: u32,
    solver: u32,
    subject: &Contours32,
    clip: &Contours32,
    coordinates: &mut [i32],
    fills: &mut [u8],
    count: &mut usize,
) -> u32
    ensures { (s : Status) × ListingEnds (λ z. z) 1073741823 fill solver
        (contours_of subject.now.coordinates.now subject.now.ends.now)
        (contours_of clip.now.coordinates.now clip.now.ends.now)
        (edge_room coordinates.old fills.old count.old)
        (edge_room coordinates.new fills.new count.new)
        s × (result ≡ code_of s) }
{
    edges_arrays(
        alloc,
        fill,
        solver,
        &subject.given(),
        &clip.given(),
        coordinates,
        fills,
        count,
    )
    .code()
}
