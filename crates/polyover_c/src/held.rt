//! Answers that calls hand out.
#![tactic(auto, using(polyover_calls::proofs::Endings::given))]

ghost use Rattle.std.specs.Int.{w64, w128};
ghost use Rattle.polyover_calls.specs.Given.{contours_of};
ghost use Rattle.polyover_calls.specs.Held.{IsGiven, arrays_at_32, arrays_at_64};
ghost use Rattle.polyover_calls.specs.Holding.{ClipsAreHeld, EdgesAreHeld, HierarchyIsHeld, OverlayIsHeld};
ghost use Rattle.polyover_calls.specs.Holding.{SimplificationIsHeld, SlicesAreHeld};
ghost use Rattle.polyover_calls.specs.Options.{options_32, options_64};

use polyover_calls::arrays::{Contours32, Contours64};
use polyover_calls::asked::OverlayNumbers;
use polyover_calls::clip_options::ClipOptions;
use polyover_calls::held::{Held32, Held64};
use polyover_calls::holding::{
    clips_held, edges_held, hierarchy_held, overlay_held, simplification_held, slices_held,
};
use polyover_calls::options::{Options32, Options64};
use std::alloc::Global;

/// Hands out the shapes of the overlay that the rules and options ask for.
#[unsafe(no_mangle)]
pub extern "C" fn polyover_overlay_result_with<'a>(
    alloc: Global,
    rule: u32,
    fill: u32,
    options: &Options64,
    subject: &Contours64,
    clip: &Contours64,
    held: &mut Held64<'a>,
) -> u32
    ensures { IsGiven (OverlayIsHeld (λ z. z) 4611686018427387903 w128 (λ n. n) rule fill (options_64 options.now)
        (contours_of subject.now.coordinates.now subject.now.ends.now)
        (contours_of clip.now.coordinates.now clip.now.ends.now))
        (arrays_at_64 held.new) result }
{
    let asked = OverlayNumbers {
        rule,
        fill,
        options: options.numbers(),
        subject: subject.given(),
        clip: clip.given(),
    };
    held.give(&overlay_held(alloc, &asked))
}

/// `polyover_overlay_result_with` at 32 bits.
#[unsafe(no_mangle)]
pub extern "C" fn polyover_overlay_result_with_32<'a>(
    alloc: Global,
    rule: u32,
    fill: u32,
    options: &Options32,
    subject: &Contours32,
    clip: &Contours32,
    held: &mut Held32<'a>,
) -> u32
    ensures { IsGiven (OverlayIsHeld (λ z. z) 1073741823 w64 (λ n. n) rule fill (options_32 options.now)
        (contours_of subject.now.coordinates.now subject.now.ends.now)
        (contours_of clip.now.coordinates.now clip.now.ends.now))
        (arrays_at_32 held.new) result }
{
    let asked = OverlayNumbers {
        rule,
        fill,
        options: options.numbers(),
        subject: subject.given(),
        clip: clip.given(),
    };
    held.give(&overlay_held(alloc, &asked))
}

/// Hands out the shapes that the contours are simplified to, as the fill rule and options ask.
#[unsafe(no_mangle)]
pub extern "C" fn polyover_simplify_result_with<'a>(
    alloc: Global,
    fill: u32,
    options: &Options64,
    contours: &Contours64,
    held: &mut Held64<'a>,
) -> u32
    ensures { IsGiven (SimplificationIsHeld (λ z. z) 4611686018427387903 w128 (λ n. n) fill (options_64 options.now)
        (contours_of contours.now.coordinates.now contours.now.ends.now))
        (arrays_at_64 held.new) result }
{
    held.give(&simplification_held(alloc, fill, options.numbers(), &contours.given()))
}

/// `polyover_simplify_result_with` at 32 bits.
#[unsafe(no_mangle)]
pub extern "C" fn polyover_simplify_result_with_32<'a>(
    alloc: Global,
    fill: u32,
    options: &Options32,
    contours: &Contours32,
    held: &mut Held32<'a>,
) -> u32
    ensures { IsGiven (SimplificationIsHeld (λ z. z) 1073741823 w64 (λ n. n) fill (options_32 options.now)
        (contours_of contours.now.coordinates.now contours.now.ends.now))
        (arrays_at_32 held.new) result }
{
    held.give(&simplification_held(alloc, fill, options.numbers(), &contours.given()))
}

/// Hands out the shapes of the overlay that the rules and options ask for, and the links between them.
#[unsafe(no_mangle)]
pub extern "C" fn polyover_hierarchy_result_with<'a>(
    alloc: Global,
    rule: u32,
    fill: u32,
    options: &Options64,
    subject: &Contours64,
    clip: &Contours64,
    held: &mut Held64<'a>,
) -> u32
    ensures { IsGiven (HierarchyIsHeld (λ z. z) 4611686018427387903 w128 (λ n. n) rule fill (options_64 options.now)
        (contours_of subject.now.coordinates.now subject.now.ends.now)
        (contours_of clip.now.coordinates.now clip.now.ends.now))
        (arrays_at_64 held.new) result }
{
    let asked = OverlayNumbers {
        rule,
        fill,
        options: options.numbers(),
        subject: subject.given(),
        clip: clip.given(),
    };
    held.give(&hierarchy_held(alloc, &asked))
}

/// `polyover_hierarchy_result_with` at 32 bits.
#[unsafe(no_mangle)]
pub extern "C" fn polyover_hierarchy_result_with_32<'a>(
    alloc: Global,
    rule: u32,
    fill: u32,
    options: &Options32,
    subject: &Contours32,
    clip: &Contours32,
    held: &mut Held32<'a>,
) -> u32
    ensures { IsGiven (HierarchyIsHeld (λ z. z) 1073741823 w64 (λ n. n) rule fill (options_32 options.now)
        (contours_of subject.now.coordinates.now subject.now.ends.now)
        (contours_of clip.now.coordinates.now clip.now.ends.now))
        (arrays_at_32 held.new) result }
{
    let asked = OverlayNumbers {
        rule,
        fill,
        options: options.numbers(),
        subject: subject.given(),
        clip: clip.given(),
    };
    held.give(&hierarchy_held(alloc, &asked))
}

/// Hands out the shapes into which the lines, which are open paths, slice what the subject fills.
#[unsafe(no_mangle)]
pub extern "C" fn polyover_slice_result<'a>(
    alloc: Global,
    fill: u32,
    solver: u32,
    subject: &Contours64,
    lines: &Contours64,
    held: &mut Held64<'a>,
) -> u32
    ensures { IsGiven (SlicesAreHeld (λ z. z) 4611686018427387903 w128 fill solver
        (contours_of subject.now.coordinates.now subject.now.ends.now)
        (contours_of lines.now.coordinates.now lines.now.ends.now))
        (arrays_at_64 held.new) result }
{
    held.give(&slices_held(alloc, fill, solver, &subject.given(), &lines.given()))
}

/// `polyover_slice_result` at 32 bits.
#[unsafe(no_mangle)]
pub extern "C" fn polyover_slice_result_32<'a>(
    alloc: Global,
    fill: u32,
    solver: u32,
    subject: &Contours32,
    lines: &Contours32,
    held: &mut Held32<'a>,
) -> u32
    ensures { IsGiven (SlicesAreHeld (λ z. z) 1073741823 w64 fill solver
        (contours_of subject.now.coordinates.now subject.now.ends.now)
        (contours_of lines.now.coordinates.now lines.now.ends.now))
        (arrays_at_32 held.new) result }
{
    held.give(&slices_held(alloc, fill, solver, &subject.given(), &lines.given()))
}

/// Hands out the parts of the lines, which are open paths, that a clip by the shape keeps.
#[unsafe(no_mangle)]
pub extern "C" fn polyover_clip_result_with<'a>(
    alloc: Global,
    fill: u32,
    options: &ClipOptions,
    shape: &Contours64,
    lines: &Contours64,
    held: &mut Held64<'a>,
) -> u32
    ensures { IsGiven (ClipsAreHeld (λ z. z) 4611686018427387903 fill options.now
        (contours_of shape.now.coordinates.now shape.now.ends.now)
        (contours_of lines.now.coordinates.now lines.now.ends.now))
        (arrays_at_64 held.new) result }
{
    held.give(&clips_held(alloc, fill, *options, &shape.given(), &lines.given()))
}

/// `polyover_clip_result_with` at 32 bits.
#[unsafe(no_mangle)]
pub extern "C" fn polyover_clip_result_with_32<'a>(
    alloc: Global,
    fill: u32,
    options: &ClipOptions,
    shape: &Contours32,
    lines: &Contours32,
    held: &mut Held32<'a>,
) -> u32
    ensures { IsGiven (ClipsAreHeld (λ z. z) 1073741823 fill options.now
        (contours_of shape.now.coordinates.now shape.now.ends.now)
        (contours_of lines.now.coordinates.now lines.now.ends.now))
        (arrays_at_32 held.new) result }
{
    held.give(&clips_held(alloc, fill, *options, &shape.given(), &lines.given()))
}

/// Hands out the edges of the arrangement of the subject and the clip, with the sides that are filled.
#[unsafe(no_mangle)]
pub extern "C" fn polyover_edges_result_with<'a>(
    alloc: Global,
    fill: u32,
    solver: u32,
    subject: &Contours64,
    clip: &Contours64,
    held: &mut Held64<'a>,
) -> u32
    ensures { IsGiven (EdgesAreHeld (λ z. z) 4611686018427387903 fill solver
        (contours_of subject.now.coordinates.now subject.now.ends.now)
        (contours_of clip.now.coordinates.now clip.now.ends.now))
        (arrays_at_64 held.new) result }
{
    held.give(&edges_held(alloc, fill, solver, &subject.given(), &clip.given()))
}

/// `polyover_edges_result_with` at 32 bits.
#[unsafe(no_mangle)]
pub extern "C" fn polyover_edges_result_with_32<'a>(
    alloc: Global,
    fill: u32,
    solver: u32,
    subject: &Contours32,
    clip: &Contours32,
    held: &mut Held32<'a>,
) -> u32
    ensures { IsGiven (EdgesAreHeld (λ z. z) 1073741823 fill solver
        (contours_of subject.now.coordinates.now subject.now.ends.now)
        (contours_of clip.now.coordinates.now clip.now.ends.now))
        (arrays_at_32 held.new) result }
{
    held.give(&edges_held(alloc, fill, solver, &subject.given(), &clip.given()))
}
