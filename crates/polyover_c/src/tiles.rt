//! Contours sliced by grids into tiles, handed out.
#![tactic(auto, using(polyover_calls::proofs::Endings::given))]

ghost use Rattle.std.specs.Int.{w64, w128};
ghost use Rattle.polyover_calls.specs.Given.{contours_of};
ghost use Rattle.polyover_calls.specs.Held.{IsGiven, arrays_at_32, arrays_at_64};
ghost use Rattle.polyover_calls.specs.Tiled.{TilesAreHeld};

use polyover_calls::arrays::{Contours32, Contours64};
use polyover_calls::held::{Held32, Held64};
use polyover_calls::tiles::tiles_held;
use std::alloc::Global;

/// Hands out the tiles into which the lines of a grid, of cells as wide and as high, slice what the subject fills.
#[unsafe(no_mangle)]
pub extern "C" fn polyover_tiles_result<'a>(
    alloc: Global,
    fill: u32,
    solver: u32,
    subject: &Contours64,
    width: i64,
    height: i64,
    held: &mut Held64<'a>,
) -> u32
    ensures { IsGiven (TilesAreHeld (λ z. z) 4611686018427387903 w128 fill solver width height
        (contours_of subject.now.coordinates.now subject.now.ends.now))
        (arrays_at_64 held.new) result }
{
    held.give(&tiles_held(alloc, fill, solver, &subject.given(), width, height))
}

/// `polyover_tiles_result` at 32 bits.
#[unsafe(no_mangle)]
pub extern "C" fn polyover_tiles_result_32<'a>(
    alloc: Global,
    fill: u32,
    solver: u32,
    subject: &Contours32,
    width: i32,
    height: i32,
    held: &mut Held32<'a>,
) -> u32
    ensures { IsGiven (TilesAreHeld (λ z. z) 1073741823 w64 fill solver width height
        (contours_of subject.now.coordinates.now subject.now.ends.now))
        (arrays_at_32 held.new) result }
{
    held.give(&tiles_held(alloc, fill, solver, &subject.given(), width, height))
}
