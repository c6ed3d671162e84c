//! Where the points of an input lie in its subject.

ghost use Rattle.std.specs.Prelude.{MatchResult, string_bytes};
ghost use Rattle.polyover_engine.specs.Answers.{Answers, EndsUnanswered};
ghost use Rattle.polyover_text.specs.Points.{FiguresInRange};
ghost use Rattle.polyover_text.specs.Statements.{figures_at};

use crate::exit::Exit;
use crate::subject::subject;
use overlay_located::resolved_contours::ResolvedContours;
use overlay_relate::containment::IntPointContainment;
use polyover_text::input::Input;
use polyover_text::location_text::{locations_text, truths_text};
use polyover_text::query::Query;
use std::alloc::Allocator;

/// The answer to a query about points: a line for each, which tells whether it is inside the subject.
pub(crate) fn contains_text<A: Allocator + Copy>(
    alloc: A,
    input: &Input<A>,
) -> Result<String<A>, Exit>
    requires { FiguresInRange (figures_at input.now.figures) }
    ensures { MatchResult result
        (λ text. Answers (figures_at input.now.figures) Query.Contains (string_bytes text))
        (λ exit. EndsUnanswered (figures_at input.now.figures) input.now.line Query.Contains exit) }
{
    let shape = subject(alloc, &input.figures.contours)?;
    let resolved = ResolvedContours { contours: &shape };
    let truths = resolved.contains_points(alloc, &input.figures.points)?;
    Ok(truths_text(alloc, &truths)?)
}

/// The answer to a query about points: a line for each, which tells where it lies in the subject.
pub(crate) fn locate_text<A: Allocator + Copy>(
    alloc: A,
    input: &Input<A>,
) -> Result<String<A>, Exit>
    requires { FiguresInRange (figures_at input.now.figures) }
    ensures { MatchResult result
        (λ text. Answers (figures_at input.now.figures) Query.Locate (string_bytes text))
        (λ exit. EndsUnanswered (figures_at input.now.figures) input.now.line Query.Locate exit) }
{
    let shape = subject(alloc, &input.figures.contours)?;
    let resolved = ResolvedContours { contours: &shape };
    let locations = resolved.locate_points(alloc, &input.figures.points)?;
    Ok(locations_text(alloc, &locations)?)
}
