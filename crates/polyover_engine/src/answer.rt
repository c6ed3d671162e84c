//! The answer to an input.

ghost use Rattle.std.specs.Prelude.{MatchResult, string_bytes};
ghost use Rattle.polyover_engine.specs.Answers.{Answers, EndsUnanswered};
ghost use Rattle.polyover_text.specs.Points.{FiguresInRange};
ghost use Rattle.polyover_text.specs.Statements.{figures_at};

use crate::clip::clip_text;
use crate::edges::edges_text;
use crate::exit::Exit;
use crate::hierarchy::hierarchy_text;
use crate::overlay::overlay_text;
use crate::points::{contains_text, locate_text};
use crate::relations::relate_text;
use crate::slice::slice_text;
use crate::tiles::tiles_text;
use polyover_text::input::Input;
use polyover_text::query::Query;
use std::alloc::Allocator;

/// The text of the answer to an input, whose points are in the coordinate range. Refusals are those of the builder to
/// which the contours (and the open paths that are clipped, or slice) are added, and of the query on it; where points
/// are asked about, `Memory`, and `BadInput` at the line of the first contour of the subject that is not resolved; and
/// where tiles are, of a grid that does not fit the subject, `BadInput` at the line of the command.
pub(crate) fn answer_text<A: Allocator + Copy>(alloc: A, input: Input<A>) -> Result<String<A>, Exit>
    requires { FiguresInRange (figures_at input.figures) }
    ensures { MatchResult result
        (λ text. Answers (figures_at input.figures) input.query (string_bytes text))
        (λ exit. EndsUnanswered (figures_at input.figures) input.line input.query exit) }
{
    match input.query {
        Query::Edges(fill_rule) => edges_text(alloc, input, fill_rule),
        Query::Overlay(query) => overlay_text(alloc, input, query),
        Query::Hierarchy(query) => hierarchy_text(alloc, input, query),
        Query::Relate(fill_rule) => relate_text(alloc, input, fill_rule),
        Query::ClipLines(query) => clip_text(alloc, input, query),
        Query::Slice(fill_rule) => slice_text(alloc, &input, fill_rule),
        Query::Tiles(query) => tiles_text(alloc, &input, query),
        Query::Contains => contains_text(alloc, &input),
        Query::Locate => locate_text(alloc, &input),
    }
}
