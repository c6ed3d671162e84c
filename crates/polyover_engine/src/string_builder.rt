//! A builder for strings that holds the contours of an input's subject.

ghost use Rattle.std.specs.Prelude.{MatchResult, All};
ghost use Rattle.overlay_geom.specs.Points.{AllInRange};
ghost use Rattle.overlay_geom.specs.Numbers.{greatest_of_64_bits};
ghost use Rattle.overlay_string.specs.StringPaths.{shape_contours};
ghost use Rattle.polyover_text.specs.Grammar.{contour_paths};
ghost use Rattle.polyover_text.specs.Statements.{path_at, contours_at};
ghost use Rattle.polyover_engine.specs.Clips.{HoldsJust, AddsToHeld};
ghost use Rattle.polyover_engine.specs.Subjects.{subject_part, subject_of};
ghost use Rattle.overlay_builder.specs.PathLists.{MayRefuseBuilder};

use i_overlay::overlay::ShapeType;
use i_overlay::string::overlay::StringOverlay;
use overlay_geom::error::OverlayError;
use polyover_text::contour::HeldContour;
use polyover_text::figures::NumberedContour;
use std::alloc::Allocator;

/// A builder for strings, to which the contours of the subject are added in order, as those of its shape. The points
/// are in the coordinate range. Refusals: `TooManyEdges` where a contour, added after those before it, would bring
/// the weight to 2^31; `Memory`.
pub(crate) fn with_subject_shape<A: Allocator + Clone>(
    alloc: A,
    contours: &[NumberedContour<A>],
) -> Result<StringOverlay<i64, A>, OverlayError>
    requires { All (λ c. AllInRange greatest_of_64_bits c.points) (contour_paths (contours_at contours.now)) }
    ensures { MatchResult result
        (λ overlay. HoldsJust (shape_contours (subject_of (contours_at contours.now))) overlay)
        (λ e. MayRefuseBuilder (shape_contours (subject_of (contours_at contours.now))) e) }
{
    let mut overlay = StringOverlay::<i64, A>::new(alloc, 0)?;
    for given in contours {
        add(&mut overlay, &given.contour)?;
    }
    Ok(overlay)
}

// Adds the contour to the shape, if it is of the subject.
fn add<A: Allocator + Clone>(
    overlay: &mut StringOverlay<i64, A>,
    contour: &HeldContour<A>,
) -> Result<(), OverlayError>
    requires { AllInRange greatest_of_64_bits (path_at contour.now).points }
    ensures { AddsToHeld (shape_contours (subject_part (path_at contour.now).shape_type (path_at contour.now).points))
        overlay.old overlay.new result }
{
    match contour.shape_type {
        ShapeType::Subject => overlay.add_shape_contour(&contour.points),
        ShapeType::Clip => Ok(()),
    }
}
