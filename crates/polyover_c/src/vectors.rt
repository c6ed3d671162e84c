//! Shapes with the filled sides of each step, handed out.

ghost use Rattle.std.specs.Int.{w64, w128};
ghost use Rattle.polyover_calls.specs.Given.{contours_of};
ghost use Rattle.polyover_calls.specs.Held.{IsGiven, arrays_at_32, arrays_at_64};
ghost use Rattle.polyover_calls.specs.Options.{options_32, options_64};
ghost use Rattle.polyover_vectors.specs.Vectors.{VectorsAreHeld};

use polyover_calls::arrays::{Contours32, Contours64};
use polyover_calls::asked::OverlayNumbers;
use polyover_calls::held::{Held32, Held64};
use polyover_calls::options::{Options32, Options64};
use polyover_vectors::held::{give, give_32};
use polyover_vectors::vectors::vectors_held;
use std::alloc::Global;

/// Hands out the shapes of the overlay that the rules and options ask for, with the filled sides of each step.
#[unsafe(no_mangle)]
pub extern "C" fn polyover_vectors_result_with<'a>(
    alloc: Global,
    rule: u32,
    fill: u32,
    options: &Options64,
    subject: &Contours64,
    clip: &Contours64,
    held: &mut Held64<'a>,
) -> u32
    ensures { IsGiven (VectorsAreHeld (λ z. z) 4611686018427387903 w128 (λ n. n) rule fill (options_64 options.now)
        (contours_of subject.now.coordinates.now subject.now.ends.now)
        (contours_of clip.now.coordinates.now clip.now.ends.now))
        (arrays_at_64 held.new) result }
{
    let asked = OverlayNumbers {
        rule,
        fill,
        options: options.numbers(),
        subject: subject.given(),
        clip: clip.given(),
    };
    let vectors = vectors_held(alloc, &asked);
    give(&vectors, held)
}

/// `polyover_vectors_result_with` at 32 bits.
#[unsafe(no_mangle)]
pub extern "C" fn polyover_vectors_result_with_32<'a>(
    alloc: Global,
    rule: u32,
    fill: u32,
    options: &Options32,
    subject: &Contours32,
    clip: &Contours32,
    held: &mut Held32<'a>,
) -> u32
    ensures { IsGiven (VectorsAreHeld (λ z. z) 1073741823 w64 (λ n. n) rule fill (options_32 options.now)
        (contours_of subject.now.coordinates.now subject.now.ends.now)
        (contours_of clip.now.coordinates.now clip.now.ends.now))
        (arrays_at_32 held.new) result }
{
    let asked = OverlayNumbers {
        rule,
        fill,
        options: options.numbers(),
        subject: subject.given(),
        clip: clip.given(),
    };
    let vectors = vectors_held(alloc, &asked);
    give_32(&vectors, held)
}
