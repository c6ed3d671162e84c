//! How the subject and the clip of an input lie to each other.

ghost use Rattle.std.specs.Prelude.{MatchResult, string_bytes};
ghost use Rattle.overlay_geom.specs.declared.solver.Solver.TheVariants.{Rounds};
ghost use Rattle.i_overlay.specs.OneShot.{MayRefusePaths};
ghost use Rattle.i_overlay.specs.Relations.{AreRelationsOfPaths};
ghost use Rattle.overlay_relate.specs.Exchanged.{exchanged_paths};
ghost use Rattle.polyover_engine.specs.Answers.{Answers, EndsUnanswered};
ghost use Rattle.polyover_text.specs.Grammar.{paths_of};
ghost use Rattle.polyover_text.specs.Points.{FiguresInRange};
ghost use Rattle.polyover_text.specs.Statements.{figures_at};

use crate::exit::Exit;
use crate::predicate_builder::with_contours;
use i_overlay::fill_rule::FillRule;
use overlay_geom::error::OverlayError;
use overlay_relate::relations::Relations;
use polyover_text::figures::Figures;
use polyover_text::input::Input;
use polyover_text::query::Query;
use polyover_text::relations_text::relations_text;
use std::alloc::Allocator;

/// The answer to a query for relations: the text of whether each holds. The input is dropped on the way.
pub(crate) fn relate_text<A: Allocator + Copy>(
    alloc: A,
    input: Input<A>,
    fill_rule: FillRule,
) -> Result<String<A>, Exit>
    requires { FiguresInRange (figures_at input.figures) }
    ensures { MatchResult result
        (λ text. Answers (figures_at input.figures) (Query.Relate fill_rule) (string_bytes text))
        (λ exit. EndsUnanswered (figures_at input.figures) input.line (Query.Relate fill_rule) exit) }
{
    let Input { figures, .. } = input;
    let relations = relations(alloc, figures, fill_rule)?;
    Ok(relations_text(alloc, &relations)?)
}

// Whether each relation of the figures' subject and clip holds, all told of one arrangement. The figures are dropped
// once they are added.
fn relations<A: Allocator + Copy>(
    alloc: A,
    figures: Figures<A>,
    fill_rule: FillRule,
) -> Result<Relations, OverlayError>
    requires { FiguresInRange (figures_at figures) }
    ensures { MatchResult result
        (λ r. AreRelationsOfPaths Rounds fill_rule (paths_of (figures_at figures))
        (exchanged_paths (paths_of (figures_at figures))) r)
        (λ e. MayRefusePaths Rounds (paths_of (figures_at figures)) e) }
{
    let mut overlay = with_contours(alloc, &figures.contours, fill_rule)?;
    drop(figures);
    overlay.relations()
}
