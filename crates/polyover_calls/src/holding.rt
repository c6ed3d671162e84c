//! Answers of arrays, handed out.

ghost use Rattle.polyover_calls.specs.Given.{contours_of};
ghost use Rattle.polyover_calls.specs.Held.{arrays_of};
ghost use Rattle.polyover_calls.specs.Holding.{ClipsAreHeld, EdgesAreHeld, HierarchyIsHeld, OverlayIsHeld};
ghost use Rattle.polyover_calls.specs.Holding.{SimplificationIsHeld, SlicesAreHeld};

use crate::asked::OverlayNumbers;
use crate::clip::fitted_clip;
use crate::clip_options::ClipOptions;
use crate::edges::fitted_edges;
use crate::given::Contours;
use crate::held::{HeldOutcome, hold_edges, hold_linked, hold_nothing, hold_paths, hold_shapes};
use crate::hierarchy::fitted_hierarchy;
use crate::narrowed::ArrayInt;
use crate::numbers::OptionNumbers;
use crate::overlay::fitted_overlay;
use crate::simplify::fitted_simplification;
use crate::slice::fitted_slices;
use std::alloc::Global;

/// The shapes of the overlay that the numbers ask for.
#[tactic(auto, using(crate::proofs::Endings::put_ends, crate::proofs::Endings::refused_ends))]
pub fn overlay_held<'a, I: ArrayInt + 'a>(
    alloc: Global,
    asked: &OverlayNumbers<I>,
) -> HeldOutcome<'a, I>
    ensures { OverlayIsHeld I.whole I.limit I.Wide.width I.WideUInt.natural
        asked.now.rule asked.now.fill asked.now.options
        (contours_of asked.now.subject.coordinates.now asked.now.subject.ends.now)
        (contours_of asked.now.clip.coordinates.now asked.now.clip.ends.now)
        (arrays_of result.held) result.status }
{
    match fitted_overlay(alloc, asked) {
        Ok(answer) => hold_shapes(answer),
        Err(status) => hold_nothing(status),
    }
}

/// The shapes that the contours are simplified to.
#[tactic(auto, using(crate::proofs::Endings::put_ends, crate::proofs::Endings::refused_ends))]
pub fn simplification_held<'a, I: ArrayInt + 'a>(
    alloc: Global,
    fill: u32,
    options: OptionNumbers<I::WideUInt>,
    given: &Contours<I>,
) -> HeldOutcome<'a, I>
    ensures { SimplificationIsHeld I.whole I.limit I.Wide.width I.WideUInt.natural fill options
        (contours_of given.now.coordinates.now given.now.ends.now)
        (arrays_of result.held) result.status }
{
    match fitted_simplification(alloc, fill, options, given) {
        Ok(answer) => hold_shapes(answer),
        Err(status) => hold_nothing(status),
    }
}

/// The shapes of the overlay that the numbers ask for, with the links between them.
#[tactic(auto, using(crate::proofs::Endings::put_ends, crate::proofs::Endings::refused_ends))]
pub fn hierarchy_held<'a, I: ArrayInt + 'a>(
    alloc: Global,
    asked: &OverlayNumbers<I>,
) -> HeldOutcome<'a, I>
    ensures { HierarchyIsHeld I.whole I.limit I.Wide.width I.WideUInt.natural
        asked.now.rule asked.now.fill asked.now.options
        (contours_of asked.now.subject.coordinates.now asked.now.subject.ends.now)
        (contours_of asked.now.clip.coordinates.now asked.now.clip.ends.now)
        (arrays_of result.held) result.status }
{
    match fitted_hierarchy(alloc, asked) {
        Ok(answer) => hold_linked(answer),
        Err(status) => hold_nothing(status),
    }
}

/// The shapes into which the lines, which are open paths, slice the subject.
#[tactic(auto, using(crate::proofs::Endings::put_ends, crate::proofs::Endings::refused_ends))]
pub fn slices_held<'a, I: ArrayInt + 'a>(
    alloc: Global,
    fill: u32,
    solver: u32,
    subject: &Contours<I>,
    lines: &Contours<I>,
) -> HeldOutcome<'a, I>
    ensures { SlicesAreHeld I.whole I.limit I.Wide.width fill solver
        (contours_of subject.now.coordinates.now subject.now.ends.now)
        (contours_of lines.now.coordinates.now lines.now.ends.now)
        (arrays_of result.held) result.status }
{
    match fitted_slices(alloc, fill, solver, subject, lines) {
        Ok(answer) => hold_shapes(answer),
        Err(status) => hold_nothing(status),
    }
}

/// The parts of the lines, which are open paths, that a clip by the shape keeps.
#[tactic(auto, using(crate::proofs::Endings::put_ends, crate::proofs::Endings::refused_ends))]
pub fn clips_held<'a, I: ArrayInt + 'a>(
    alloc: Global,
    fill: u32,
    options: ClipOptions,
    shape: &Contours<I>,
    lines: &Contours<I>,
) -> HeldOutcome<'a, I>
    ensures { ClipsAreHeld I.whole I.limit fill options
        (contours_of shape.now.coordinates.now shape.now.ends.now)
        (contours_of lines.now.coordinates.now lines.now.ends.now)
        (arrays_of result.held) result.status }
{
    match fitted_clip(alloc, fill, options, shape, lines) {
        Ok(answer) => hold_paths(answer),
        Err(status) => hold_nothing(status),
    }
}

/// The edges of the arrangement of both shapes, with the sides that are filled.
#[tactic(auto, using(crate::proofs::Endings::put_ends, crate::proofs::Endings::refused_ends))]
pub fn edges_held<'a, I: ArrayInt + 'a>(
    alloc: Global,
    fill: u32,
    solver: u32,
    subject: &Contours<I>,
    clip: &Contours<I>,
) -> HeldOutcome<'a, I>
    ensures { EdgesAreHeld I.whole I.limit fill solver
        (contours_of subject.now.coordinates.now subject.now.ends.now)
        (contours_of clip.now.coordinates.now clip.now.ends.now)
        (arrays_of result.held) result.status }
{
    match fitted_edges(alloc, fill, solver, subject, clip) {
        Ok(answer) => hold_edges(answer),
        Err(status) => hold_nothing(status),
    }
}
