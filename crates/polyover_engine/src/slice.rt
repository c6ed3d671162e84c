//! The subject of an input, sliced along its open paths.

ghost use Rattle.std.specs.Prelude.{MatchResult, string_bytes};
ghost use Rattle.std.specs.Int.{w128};
ghost use Rattle.overlay_geom.specs.Paths.{plain_shapes};
ghost use Rattle.overlay_geom.specs.declared.solver.Solver.TheVariants.{Rounds};
ghost use Rattle.overlay_string.specs.OneShot.{MayRefusePaths};
ghost use Rattle.overlay_string.specs.StringSlices.{AreSlicedOfPaths};
ghost use Rattle.polyover_text.specs.Points.{FiguresInRange};
ghost use Rattle.polyover_text.specs.Statements.{figures_at};
ghost use Rattle.polyover_engine.specs.Answers.{Answers, EndsUnanswered};
ghost use Rattle.polyover_engine.specs.Clips.{shape_and_lines};

use crate::borrowed_subject::BorrowedSubject;
use crate::exit::Exit;
use i_overlay::fill_rule::FillRule;
use i_overlay::string::slice::IntSlice;
use overlay_geom::error::OverlayError;
use overlay_geom::path::IntShapes;
use polyover_text::figures::Figures;
use polyover_text::input::Input;
use polyover_text::query::Query;
use polyover_text::shape_text::shapes_text;
use std::alloc::Allocator;

/// The answer to a query for slices: the text of the shapes into which the open paths cut the subject.
pub(crate) fn slice_text<A: Allocator + Copy>(
    alloc: A,
    input: &Input<A>,
    fill_rule: FillRule,
) -> Result<String<A>, Exit>
    requires { FiguresInRange (figures_at input.now.figures) }
    ensures { MatchResult result
        (λ text. Answers (figures_at input.now.figures) (Query.Slice fill_rule) (string_bytes text))
        (λ exit. EndsUnanswered (figures_at input.now.figures) input.now.line (Query.Slice fill_rule) exit) }
{
    let slices = sliced_subject(alloc, &input.figures, fill_rule)?;
    Ok(shapes_text(alloc, &slices)?)
}

// The shapes into which the open paths cut the subject, whose contours are taken as those of one shape.
fn sliced_subject<A: Allocator + Copy>(
    alloc: A,
    figures: &Figures<A>,
    fill_rule: FillRule,
) -> Result<IntShapes<i64, A>, OverlayError>
    requires { FiguresInRange (figures_at figures.now) }
    ensures { MatchResult result
        (λ v. AreSlicedOfPaths Rounds w128 fill_rule (shape_and_lines (figures_at figures.now))
        (plain_shapes (λ z. z) v.items))
        (λ e. MayRefusePaths Rounds (shape_and_lines (figures_at figures.now)) e) }
{
    let subject = BorrowedSubject::new(alloc, &figures.contours)?;
    subject.slice_by_paths(alloc, &figures.lines, fill_rule)
}
