//! The overlay of contours in arrays, with the links between its shapes.

ghost use Rattle.std.specs.Prelude.{MatchResult};
ghost use Rattle.polyover_calls.specs.Given.{contours_of};
ghost use Rattle.polyover_calls.specs.Hierarchies.{IsLinkedOverlay, HierarchyEnds};
ghost use Rattle.polyover_calls.specs.Linked.{AreFlatLinked, flat_linked, linked_room};
ghost use Rattle.polyover_calls.specs.Overlays.{IsOverlayRefused};

use crate::asked::{OverlayNumbers, asked_overlay};
use crate::counts::Counts;
use crate::given::Contours;
use crate::linked_answer::{LinkedAnswer, flattened_hierarchy, put_linked, widened_linked};
use crate::links::Link;
use crate::narrowed::{ArrayInt, narrowed_both};
use crate::numbers::are_known;
use crate::status::Status;
use overlay_geom::integer::OverlayInt;
use std::alloc::Global;

/// The overlay that the numbers ask for, with the links between its shapes, put into the arrays.
#[tactic(auto, using(crate::proofs::Endings::put_ends, crate::proofs::Endings::refused_ends))]
pub fn hierarchy_arrays<I: ArrayInt>(
    alloc: Global,
    asked: &OverlayNumbers<I>,
    coordinates: &mut [I],
    contour_ends: &mut [usize],
    shape_ends: &mut [usize],
    links: &mut [Link],
    counts: &mut Counts,
    link_count: &mut usize,
) -> Status
    ensures { HierarchyEnds I.whole I.limit I.Wide.width I.WideUInt.natural
        asked.now.rule asked.now.fill asked.now.options
        (contours_of asked.now.subject.coordinates.now asked.now.subject.ends.now)
        (contours_of asked.now.clip.coordinates.now asked.now.clip.ends.now)
        (linked_room coordinates.old contour_ends.old shape_ends.old links.old counts.old link_count.old)
        (linked_room coordinates.new contour_ends.new shape_ends.new links.new counts.new link_count.new)
        result }
{
    match fitted_hierarchy(alloc, asked) {
        Ok(answer) => put_linked(
            &answer,
            coordinates,
            contour_ends,
            shape_ends,
            links,
            counts,
            link_count,
        ),
        Err(status) => status,
    }
}

// The overlay that the numbers ask for, with the links between its shapes, as arrays.
#[tactic(auto, using(crate::proofs::Overlays::no_memory, crate::proofs::Overlays::query_refused, crate::proofs::Hierarchies::hierarchy_answered))]
fn hierarchy_answer<I: OverlayInt>(
    alloc: Global,
    asked: &OverlayNumbers<I>,
) -> Result<LinkedAnswer<I>, Status>
    ensures { MatchResult result
        (λ a. AreFlatLinked (IsLinkedOverlay I.whole I.limit I.Wide.width I.WideUInt.natural
        asked.now.rule asked.now.fill asked.now.options
        (contours_of asked.now.subject.coordinates.now asked.now.subject.ends.now)
        (contours_of asked.now.clip.coordinates.now asked.now.clip.ends.now)) I.whole
        (flat_linked a.shapes.coordinates.items a.shapes.contour_ends.items a.shapes.shape_ends.items
        a.links.items))
        (IsOverlayRefused I.whole I.limit asked.now.rule asked.now.fill asked.now.options
        (contours_of asked.now.subject.coordinates.now asked.now.subject.ends.now)
        (contours_of asked.now.clip.coordinates.now asked.now.clip.ends.now)) }
{
    let mut overlay = asked_overlay(alloc, asked)?;
    let hierarchy = overlay
        .builder
        .overlay_hierarchy(overlay.rule, overlay.fill)?;
    let answer = flattened_hierarchy(alloc, &hierarchy)?;
    Ok(answer)
}

// The same, at 32 bits where all coordinates fit and contours of all areas are kept.
pub(crate) fn fitted_hierarchy<I: ArrayInt>(
    alloc: Global,
    asked: &OverlayNumbers<I>,
) -> Result<LinkedAnswer<I>, Status>
    ensures { MatchResult result
        (λ a. AreFlatLinked (IsLinkedOverlay I.whole I.limit I.Wide.width I.WideUInt.natural
        asked.now.rule asked.now.fill asked.now.options
        (contours_of asked.now.subject.coordinates.now asked.now.subject.ends.now)
        (contours_of asked.now.clip.coordinates.now asked.now.clip.ends.now)) I.whole
        (flat_linked a.shapes.coordinates.items a.shapes.contour_ends.items a.shapes.shape_ends.items
        a.links.items))
        (IsOverlayRefused I.whole I.limit asked.now.rule asked.now.fill asked.now.options
        (contours_of asked.now.subject.coordinates.now asked.now.subject.ends.now)
        (contours_of asked.now.clip.coordinates.now asked.now.clip.ends.now)) }
{
    if asked.options.keep_all() && are_known(asked.rule, asked.fill, &asked.options) {
        if let Some(both) = narrowed_both(alloc, &asked.subject, &asked.clip) {
            let subject = Contours {
                coordinates: &both.first,
                ends: asked.subject.ends,
            };
            let clip = Contours {
                coordinates: &both.second,
                ends: asked.clip.ends,
            };
            let narrow = OverlayNumbers {
                rule: asked.rule,
                fill: asked.fill,
                options: asked.options.without_minimum(),
                subject,
                clip,
            };
            let answer = hierarchy_answer(alloc, &narrow)?;
            let answer = widened_linked(alloc, answer)?;
            return Ok(answer);
        }
    }
    hierarchy_answer(alloc, asked)
}
