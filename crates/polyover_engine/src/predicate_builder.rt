//! A builder for predicates that holds the contours of an input.

ghost use Rattle.std.specs.Prelude.{MatchResult, All, false};
ghost use Rattle.overlay_geom.specs.Points.{AllInRange};
ghost use Rattle.overlay_geom.specs.Numbers.{greatest_of_64_bits};
ghost use Rattle.overlay_geom.specs.declared.solver.Solver.TheVariants.{Rounds};
ghost use Rattle.i_overlay.specs.Relations.{HasAddedUnder};
ghost use Rattle.polyover_text.specs.Grammar.{contour_paths};
ghost use Rattle.polyover_text.specs.Statements.{contours_at};
ghost use Rattle.overlay_builder.specs.PathLists.{MayRefuseBuilder};
ghost use Rattle.overlay_builder.specs.GivenPaths.{added_paths};

use i_overlay::fill_rule::FillRule;
use i_overlay::relate::PredicateOverlay;
use overlay_geom::error::OverlayError;
use polyover_text::figures::NumberedContour;
use std::alloc::Allocator;

/// A builder for predicates under the fill rule, to which the contours are added in order. The points are in
/// the coordinate range. Refusals: `TooManyEdges` where a contour, added after those before it, would bring
/// the weight to 2^31; `Memory`.
pub(crate) fn with_contours<A: Allocator + Clone>(
    alloc: A,
    contours: &[NumberedContour<A>],
    fill_rule: FillRule,
) -> Result<PredicateOverlay<i64, A>, OverlayError>
    requires { All (λ c. AllInRange greatest_of_64_bits c.points) (contour_paths (contours_at contours.now)) }
    ensures { MatchResult result
        (λ overlay. HasAddedUnder Rounds fill_rule (contour_paths (contours_at contours.now)) overlay)
        (λ e. MayRefuseBuilder (added_paths false (contour_paths (contours_at contours.now))) e) }
{
    let mut overlay = PredicateOverlay::<i64, A>::new(alloc, 0)?;
    overlay.fill_rule = fill_rule;
    for given in contours {
        let contour = &given.contour;
        overlay.add_contour(&contour.points, contour.shape_type)?;
    }
    Ok(overlay)
}
