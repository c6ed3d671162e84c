//! The overlay of contours in arrays, with the filled sides of each step.

ghost use Rattle.std.specs.Prelude.{MatchResult};
ghost use Rattle.polyover_calls.specs.Given.{contours_of};
ghost use Rattle.polyover_calls.specs.Overlays.{IsOverlayRefused};
ghost use Rattle.polyover_vectors.specs.Flattened.{vector_arrays};
ghost use Rattle.polyover_vectors.specs.Held.{arrays_of};
ghost use Rattle.polyover_vectors.specs.Vectors.{AreVectors, VectorsAreHeld};

use crate::flat::{FlatVectors, flattened};
use crate::held::{Outcome, hold, hold_nothing};
use overlay_geom::integer::OverlayInt;
use polyover_calls::asked::{OverlayNumbers, asked_overlay};
use polyover_calls::status::Status;
use std::alloc::Global;

/// The shapes of the overlay that the numbers ask for, with the filled sides of each step.
#[tactic(auto, using(polyover_calls::proofs::Endings::put_ends, polyover_calls::proofs::Endings::refused_ends))]
pub fn vectors_held<'a, I: OverlayInt + 'a>(
    alloc: Global,
    asked: &OverlayNumbers<I>,
) -> Outcome<'a, I>
    ensures { VectorsAreHeld I.whole I.limit I.Wide.width I.WideUInt.natural
        asked.now.rule asked.now.fill asked.now.options
        (contours_of asked.now.subject.coordinates.now asked.now.subject.ends.now)
        (contours_of asked.now.clip.coordinates.now asked.now.clip.ends.now)
        (arrays_of result.vectors) result.status }
{
    match vectors(alloc, asked) {
        Ok(flat) => hold(flat),
        Err(status) => hold_nothing(status),
    }
}

// The shapes as arrays, or why there are none.
#[tactic(auto, using(polyover_calls::proofs::Overlays::no_memory, polyover_calls::proofs::Overlays::query_refused))]
fn vectors<I: OverlayInt>(
    alloc: Global,
    asked: &OverlayNumbers<I>,
) -> Result<FlatVectors<I>, Status>
    ensures { MatchResult result
        (λ f. AreVectors I.whole I.limit I.Wide.width I.WideUInt.natural asked.now.rule asked.now.fill asked.now.options
        (contours_of asked.now.subject.coordinates.now asked.now.subject.ends.now)
        (contours_of asked.now.clip.coordinates.now asked.now.clip.ends.now)
        (vector_arrays f.coordinates.items f.contour_ends.items f.shape_ends.items f.fills.items))
        (IsOverlayRefused I.whole I.limit asked.now.rule asked.now.fill asked.now.options
        (contours_of asked.now.subject.coordinates.now asked.now.subject.ends.now)
        (contours_of asked.now.clip.coordinates.now asked.now.clip.ends.now)) }
{
    let mut overlay = asked_overlay(alloc, asked)?;
    let shapes = overlay
        .builder
        .build_shape_vectors(overlay.fill, overlay.rule)?;
    let flat = flattened(alloc, &shapes)?;
    Ok(flat)
}
