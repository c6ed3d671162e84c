//! A builder that holds the contours of an input.

ghost use Rattle.std.specs.Prelude.{MatchResult, All, false};
ghost use Rattle.overlay_geom.specs.Points.{AllInRange};
ghost use Rattle.overlay_geom.specs.Numbers.{greatest_of_64_bits};
ghost use Rattle.polyover_engine.specs.Builders.{HasAdded, IsAskedBuilder};
ghost use Rattle.polyover_text.specs.Grammar.{contour_paths};
ghost use Rattle.polyover_text.specs.Statements.{contours_at};
ghost use Rattle.overlay_builder.specs.PathLists.{MayRefuseBuilder};
ghost use Rattle.overlay_builder.specs.GivenPaths.{added_paths};

use i_overlay::overlay::Overlay;
use overlay_geom::error::OverlayError;
use polyover_text::figures::NumberedContour;
use polyover_text::query::OverlayQuery;
use std::alloc::Allocator;

/// A builder with default options, to which the contours are added in order. The points are in the
/// coordinate range. Refusals: `TooManyEdges` where a contour, added after those before it, would
/// bring the weight to 2^31; `Memory`.
pub fn with_contours<A: Allocator + Clone>(
    alloc: A,
    contours: &[NumberedContour<A>],
) -> Result<Overlay<i64, A>, OverlayError>
    requires { All (λ c. AllInRange greatest_of_64_bits c.points) (contour_paths (contours_at contours.now)) }
    ensures { MatchResult result
        (λ overlay. HasAdded (contour_paths (contours_at contours.now)) overlay)
        (λ e. MayRefuseBuilder (added_paths false (contour_paths (contours_at contours.now))) e) }
{
    let mut overlay = Overlay::<i64, A>::new(alloc, 0)?;
    for given in contours {
        let contour = &given.contour;
        overlay.add_contour(&contour.points, contour.shape_type)?;
    }
    Ok(overlay)
}

/// Returns the builder of the contours with the options that the query sets.
pub(crate) fn asked_builder<A: Allocator + Clone>(
    alloc: A,
    contours: &[NumberedContour<A>],
    query: OverlayQuery,
) -> Result<Overlay<i64, A>, OverlayError>
    requires { All (λ c. AllInRange greatest_of_64_bits c.points) (contour_paths (contours_at contours.now)) }
    ensures { MatchResult result
        (λ overlay. IsAskedBuilder (contour_paths (contours_at contours.now)) query overlay)
        (λ e. MayRefuseBuilder (added_paths false (contour_paths (contours_at contours.now))) e) }
{
    let mut overlay = with_contours(alloc, contours)?;
    overlay.options.output_direction = query.output.output_direction;
    overlay.options.preserve_output_collinear = query.output.preserve_output_collinear;
    overlay.options.ogc = query.output.ogc;
    overlay.options.min_output_area = query.output.min_output_area.unwrap_or(0);
    Ok(overlay)
}
