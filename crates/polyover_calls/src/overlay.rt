//! The overlay of contours in arrays.

ghost use Rattle.std.specs.Prelude.{MatchResult};
ghost use Rattle.polyover_calls.specs.Given.{contours_of};
ghost use Rattle.polyover_calls.specs.Written.{IsFlat, flat_shapes, shape_room};
ghost use Rattle.polyover_calls.specs.Overlays.{IsOverlay, IsOverlayRefused, OverlayEnds};

use crate::answer::{Answer, flat_answer, put, widened};
use crate::asked::{OverlayNumbers, asked_overlay};
use crate::counts::Counts;
use crate::given::Contours;
use crate::narrowed::{ArrayInt, narrowed_both};
use crate::numbers::are_known;
use crate::status::Status;
use overlay_geom::integer::OverlayInt;
use std::alloc::Global;

/// The overlay that the numbers ask for, put into the arrays.
#[tactic(auto, using(crate::proofs::Endings::put_ends, crate::proofs::Endings::refused_ends))]
pub fn overlay_arrays<I: ArrayInt>(
    alloc: Global,
    asked: &OverlayNumbers<I>,
    coordinates: &mut [I],
    contour_ends: &mut [usize],
    shape_ends: &mut [usize],
    counts: &mut Counts,
) -> Status
    ensures { OverlayEnds I.whole I.limit I.Wide.width I.WideUInt.natural
        asked.now.rule asked.now.fill asked.now.options
        (contours_of asked.now.subject.coordinates.now asked.now.subject.ends.now)
        (contours_of asked.now.clip.coordinates.now asked.now.clip.ends.now)
        (shape_room coordinates.old contour_ends.old shape_ends.old counts.old)
        (shape_room coordinates.new contour_ends.new shape_ends.new counts.new)
        result }
{
    match fitted_overlay(alloc, asked) {
        Ok(answer) => put(&answer, coordinates, contour_ends, shape_ends, counts),
        Err(status) => status,
    }
}

// The overlay that the numbers ask for, as arrays.
#[tactic(auto, using(crate::proofs::Overlays::no_memory, crate::proofs::Overlays::flat_refused, crate::proofs::Overlays::overlay_answered))]
fn overlay_answer<I: OverlayInt>(
    alloc: Global,
    asked: &OverlayNumbers<I>,
) -> Result<Answer<I>, Status>
    ensures { MatchResult result
        (λ a. IsFlat (IsOverlay I.whole I.limit I.Wide.width I.WideUInt.natural
        asked.now.rule asked.now.fill asked.now.options
        (contours_of asked.now.subject.coordinates.now asked.now.subject.ends.now)
        (contours_of asked.now.clip.coordinates.now asked.now.clip.ends.now)) I.whole
        (flat_shapes a.coordinates.items a.contour_ends.items a.shape_ends.items))
        (IsOverlayRefused I.whole I.limit asked.now.rule asked.now.fill asked.now.options
        (contours_of asked.now.subject.coordinates.now asked.now.subject.ends.now)
        (contours_of asked.now.clip.coordinates.now asked.now.clip.ends.now)) }
{
    let overlay = asked_overlay(alloc, asked)?;
    let flat = overlay
        .builder
        .into_flat_shapes(overlay.rule, overlay.fill)?;
    let answer = flat_answer(alloc, flat)?;
    Ok(answer)
}

// The same, at 32 bits where all coordinates fit and contours of all areas are kept.
pub(crate) fn fitted_overlay<I: ArrayInt>(
    alloc: Global,
    asked: &OverlayNumbers<I>,
) -> Result<Answer<I>, Status>
    ensures { MatchResult result
        (λ a. IsFlat (IsOverlay I.whole I.limit I.Wide.width I.WideUInt.natural
        asked.now.rule asked.now.fill asked.now.options
        (contours_of asked.now.subject.coordinates.now asked.now.subject.ends.now)
        (contours_of asked.now.clip.coordinates.now asked.now.clip.ends.now)) I.whole
        (flat_shapes a.coordinates.items a.contour_ends.items a.shape_ends.items))
        (IsOverlayRefused I.whole I.limit asked.now.rule asked.now.fill asked.now.options
        (contours_of asked.now.subject.coordinates.now asked.now.subject.ends.now)
        (contours_of asked.now.clip.coordinates.now asked.now.clip.ends.now)) }
{
    if asked.options.keep_all() && are_known(asked.rule, asked.fill, &asked.options) {
        if let Some(both) = narrowed_both(alloc, &asked.subject, &asked.clip) {
            let subject = Contours {
                coordinates: &both.first,
                ends: asked.subject.ends,
            };
            let clip = Contours {
                coordinates: &both.second,
                ends: asked.clip.ends,
            };
            let narrow = OverlayNumbers {
                rule: asked.rule,
                fill: asked.fill,
                options: asked.options.without_minimum(),
                subject,
                clip,
            };
            let answer = overlay_answer(alloc, &narrow)?;
            let answer = widened(alloc, answer)?;
            return Ok(answer);
        }
    }
    overlay_answer(alloc, asked)
}
