//! The shapes of an overlay.

ghost use Rattle.std.specs.Prelude.{MatchResult, string_bytes};
ghost use Rattle.overlay_geom.specs.Flat.{shapes_in};
ghost use Rattle.overlay_geom.specs.declared.solver.Solver.TheVariants.{Rounds};
ghost use Rattle.i_overlay.specs.OneShot.{IsResultOfPaths, MayRefusePaths};
ghost use Rattle.polyover_engine.specs.Answers.{Answers, EndsUnanswered};
ghost use Rattle.polyover_engine.specs.Builders.{asked_by};
ghost use Rattle.polyover_text.specs.Grammar.{paths_of};
ghost use Rattle.polyover_text.specs.Points.{FiguresInRange};
ghost use Rattle.polyover_text.specs.Statements.{figures_at};

use crate::builder::asked_builder;
use crate::exit::Exit;
use overlay_geom::error::OverlayError;
use overlay_geom::flat::shapes::FlatShapesBuffer;
use polyover_text::figures::Figures;
use polyover_text::flat_shape_text::flat_shapes_text;
use polyover_text::input::Input;
use polyover_text::query::{OverlayQuery, Query};
use std::alloc::Allocator;

/// The answer to a query for an overlay: the text of its shapes. The input is dropped on the way, so that less memory
/// is held.
pub(crate) fn overlay_text<A: Allocator + Copy>(
    alloc: A,
    input: Input<A>,
    query: OverlayQuery,
) -> Result<String<A>, Exit>
    requires { FiguresInRange (figures_at input.figures) }
    ensures { MatchResult result
        (λ text. Answers (figures_at input.figures) (Query.Overlay query) (string_bytes text))
        (λ exit. EndsUnanswered (figures_at input.figures) input.line (Query.Overlay query) exit) }
{
    let Input { figures, .. } = input;
    let shapes = overlay_shapes(alloc, figures, query)?;
    Ok(flat_shapes_text(alloc, &shapes)?)
}

// The shapes of an overlay over the contours' arrangement, in one list. The figures are dropped once they are added.
fn overlay_shapes<A: Allocator + Clone>(
    alloc: A,
    figures: Figures<A>,
    query: OverlayQuery,
) -> Result<FlatShapesBuffer<i64, A>, OverlayError>
    requires { FiguresInRange (figures_at figures) }
    ensures { MatchResult result
        (λ b. IsResultOfPaths Rounds (asked_by query) (paths_of (figures_at figures))
        (shapes_in (λ z. z) b.points.items b.contour_ranges.items b.shape_ranges.items))
        (λ e. MayRefusePaths Rounds (paths_of (figures_at figures)) e) }
{
    let builder = asked_builder(alloc, &figures.contours, query)?;
    drop(figures);
    builder.into_flat_shapes(query.overlay_rule, query.fill_rule)
}
