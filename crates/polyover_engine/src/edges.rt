//! The edges of the arrangement of an input's contours.

ghost use Rattle.std.specs.Prelude.{MatchResult, map, string_bytes};
ghost use Rattle.overlay_geom.specs.declared.solver.Solver.TheVariants.{Rounds};
ghost use Rattle.overlay_order.specs.Vectors.{plain_vector};
ghost use Rattle.i_overlay.specs.OneShot.{AreEdgesOfPaths, MayRefusePaths};
ghost use Rattle.polyover_engine.specs.Answers.{Answers, EndsUnanswered};
ghost use Rattle.polyover_text.specs.Grammar.{paths_of};
ghost use Rattle.polyover_text.specs.Points.{FiguresInRange};
ghost use Rattle.polyover_text.specs.Statements.{figures_at};

use crate::builder::with_contours;
use crate::exit::Exit;
use i_overlay::fill_rule::FillRule;
use i_overlay::vector::edge::DataVectorEdge;
use overlay_geom::error::OverlayError;
use polyover_text::edge_text;
use polyover_text::figures::Figures;
use polyover_text::input::Input;
use polyover_text::query::Query;
use std::alloc::Allocator;

/// The answer to a query for edges: the text of the edges. The input is dropped on the way.
pub(crate) fn edges_text<A: Allocator + Copy>(
    alloc: A,
    input: Input<A>,
    fill_rule: FillRule,
) -> Result<String<A>, Exit>
    requires { FiguresInRange (figures_at input.figures) }
    ensures { MatchResult result
        (λ text. Answers (figures_at input.figures) (Query.Edges fill_rule) (string_bytes text))
        (λ exit. EndsUnanswered (figures_at input.figures) input.line (Query.Edges fill_rule) exit) }
{
    let Input { figures, .. } = input;
    let edges = arranged_edges(alloc, figures, fill_rule)?;
    Ok(edge_text::edges_text(alloc, &edges)?)
}

// The edges of the contours' arrangement, with the sides that are filled. The figures are dropped once they are added.
fn arranged_edges<A: Allocator + Clone>(
    alloc: A,
    figures: Figures<A>,
    fill_rule: FillRule,
) -> Result<Vec<DataVectorEdge<i64, ()>, A>, OverlayError>
    requires { FiguresInRange (figures_at figures) }
    ensures { MatchResult result
        (λ v. AreEdgesOfPaths Rounds fill_rule (paths_of (figures_at figures))
        (map (plain_vector (λ z. z)) v.items))
        (λ e. MayRefusePaths Rounds (paths_of (figures_at figures)) e) }
{
    let mut builder = with_contours(alloc, &figures.contours)?;
    drop(figures);
    builder.build_separate_vectors(fill_rule)
}
