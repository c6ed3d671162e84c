//! A shape that is simplified, where it is told whether it stays as it is given.

ghost use Rattle.std.specs.Int.{w64, w128};
ghost use Rattle.polyover_calls.specs.Given.{contours_of};
ghost use Rattle.polyover_calls.specs.Held.{arrays_at_32, arrays_at_64};
ghost use Rattle.polyover_calls.specs.Options.{options_32, options_64};
ghost use Rattle.polyover_simple.specs.Told.{AreGivenTold, ToldShapesAreHeld};

use polyover_calls::arrays::{Contours32, Contours64};
use polyover_calls::held::{Held32, Held64};
use polyover_calls::options::{Options32, Options64};
use polyover_simple::shape::simplified_shape_held;
use polyover_simple::told::{give_told, give_told_32};
use std::alloc::Global;

/// Hands out the shapes that the contours are simplified to, as the fill rule and options ask, and writes 1 where they
/// stay as they are given, else 0.
#[unsafe(no_mangle)]
pub extern "C" fn polyover_simplify_shape_result_with<'a>(
    alloc: Global,
    fill: u32,
    options: &Options64,
    contours: &Contours64,
    held: &mut Held64<'a>,
    as_given: &mut u32,
) -> u32
    ensures { AreGivenTold (ToldShapesAreHeld (λ z. z) 4611686018427387903 w128 (λ n. n) fill
        (options_64 options.now)
        (contours_of contours.now.coordinates.now contours.now.ends.now))
        (arrays_at_64 held.new) as_given.new result }
{
    let told = simplified_shape_held(alloc, fill, options.numbers(), &contours.given());
    give_told(&told, held, as_given)
}

/// `polyover_simplify_shape_result_with` at 32 bits.
#[unsafe(no_mangle)]
pub extern "C" fn polyover_simplify_shape_result_with_32<'a>(
    alloc: Global,
    fill: u32,
    options: &Options32,
    contours: &Contours32,
    held: &mut Held32<'a>,
    as_given: &mut u32,
) -> u32
    ensures { AreGivenTold (ToldShapesAreHeld (λ z. z) 1073741823 w64 (λ n. n) fill
        (options_32 options.now)
        (contours_of contours.now.coordinates.now contours.now.ends.now))
        (arrays_at_32 held.new) as_given.new result }
{
    let told = simplified_shape_held(alloc, fill, options.numbers(), &contours.given());
    give_told_32(&told, held, as_given)
}
