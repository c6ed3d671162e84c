//! The open paths of an input, clipped by its subject.

ghost use Rattle.std.specs.Prelude.{◌≡◌, MatchResult, string_bytes};
ghost use Rattle.overlay_geom.specs.Paths.{paths_of_shape};
ghost use Rattle.overlay_geom.specs.declared.solver.Solver.TheVariants.{Rounds};
ghost use Rattle.overlay_string.specs.OneShot.{AreClippedOfPaths, MayRefusePaths};
ghost use Rattle.polyover_text.specs.Points.{FiguresInRange};
ghost use Rattle.polyover_text.specs.Statements.{figures_at};
ghost use Rattle.polyover_engine.specs.Answers.{Answers, EndsUnanswered};
ghost use Rattle.polyover_engine.specs.Clips.{clip_rule_of, shape_and_lines};

use crate::exit::Exit;
use crate::string_builder::with_subject_shape;
use i_overlay::string::clip::ClipRule;
use overlay_geom::error::OverlayError;
use overlay_geom::path::IntPath;
use polyover_text::clip_options::KeptParts;
use polyover_text::figures::Figures;
use polyover_text::input::Input;
use polyover_text::path_text::paths_text;
use polyover_text::query::{ClipQuery, Query};
use std::alloc::Allocator;

/// The answer to a query for a clip: the text of the paths that it leaves. The input is dropped on the way.
pub(crate) fn clip_text<A: Allocator + Copy>(
    alloc: A,
    input: Input<A>,
    query: ClipQuery,
) -> Result<String<A>, Exit>
    requires { FiguresInRange (figures_at input.figures) }
    ensures { MatchResult result
        (λ text. Answers (figures_at input.figures) (Query.ClipLines query) (string_bytes text))
        (λ exit. EndsUnanswered (figures_at input.figures) input.line (Query.ClipLines query) exit) }
{
    let Input { figures, .. } = input;
    let paths = clipped_lines(alloc, figures, query)?;
    Ok(paths_text(alloc, &paths)?)
}

// The parts of the open paths that a clip by the subject keeps, as paths. The figures are dropped once they are added.
fn clipped_lines<A: Allocator + Clone>(
    alloc: A,
    figures: Figures<A>,
    query: ClipQuery,
) -> Result<Vec<IntPath<i64, A>, A>, OverlayError>
    requires { FiguresInRange (figures_at figures) }
    ensures { MatchResult result
        (λ v. AreClippedOfPaths Rounds query.fill_rule (clip_rule_of query.options)
        (shape_and_lines (figures_at figures))
        (paths_of_shape (λ z. z) v.items))
        (λ e. MayRefusePaths Rounds (shape_and_lines (figures_at figures)) e) }
{
    let mut overlay = with_subject_shape(alloc, &figures.contours)?;
    overlay.add_string_paths(&figures.lines)?;
    drop(figures);
    overlay.clip_string_lines(query.fill_rule, clip_rule(query.options))
}

// Which parts a clip with these options keeps.
fn clip_rule(options: KeptParts) -> ClipRule
    ensures { result ≡ clip_rule_of options }
{
    ClipRule {
        invert: options.invert,
        boundary_included: options.boundary_included,
    }
}
