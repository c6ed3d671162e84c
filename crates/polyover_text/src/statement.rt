//! What a line says.

ghost use Rattle.std.specs.Prelude.{◌∷◌, MatchResult, codes};
ghost use Rattle.polyover_text.specs.Grammar.{words, shape_name};
ghost use Rattle.polyover_text.specs.Statements.{Says, IsFaultOf};
ghost use Rattle.polyover_text.specs.Words.{words_left};

use crate::command::parse_command;
use crate::contour::HeldContour;
use crate::line_error::LineError;
use crate::points::{parse_point, parse_points};
use crate::query::Query;
use crate::words::Words;
use overlay_geom::options::ShapeType;
use overlay_geom::point::IntPoint;
use std::alloc::Allocator;

/// What a line says.
#[derive(Drop)]
pub enum Statement<A: Allocator> {
    /// Nothing: it has no word.
    Blank,
    /// A contour.
    Contour(HeldContour<A>),
    /// An open path.
    OpenPath(Vec<IntPoint<i64>, A>),
    /// A point.
    Point(IntPoint<i64>),
    /// The command: this is asked for.
    Run(Query),
}

/// What a line says, if it is of the grammar. `Memory` comes where the points of a contour or of an open path did not
/// fit.
pub(crate) fn parse_statement<A: Allocator>(
    alloc: A,
    line: &[u8],
) -> Result<Statement<A>, LineError>
    ensures { MatchResult result
        (λ s. Says (words line.now) s)
        (λ e. IsFaultOf (words line.now) e) }
{
    let mut words = Words::new(line);
    match words.next() {
        None => Ok(Statement::Blank),
        Some(b"subject") => parse_contour(alloc, ShapeType::Subject, words),
        Some(b"clip") => parse_contour(alloc, ShapeType::Clip, words),
        Some(b"line") => parse_open_path(alloc, words),
        Some(b"point") => match parse_point(words) {
            Some(point) => Ok(Statement::Point(point)),
            None => Err(LineError::Bad),
        },
        Some(b"run") => match parse_command(words) {
            Some(query) => Ok(Statement::Run(query)),
            None => Err(LineError::Bad),
        },
        Some(_) => Err(LineError::Bad),
    }
}

// The contour of a shape, after the word that names the shape.
fn parse_contour<A: Allocator>(
    alloc: A,
    shape_type: ShapeType,
    words: Words<'_>,
) -> Result<Statement<A>, LineError>
    ensures { MatchResult result
        (λ s. Says (shape_name shape_type ∷ words_left words.entry) s)
        (λ e. IsFaultOf (shape_name shape_type ∷ words_left words.entry) e) }
{
    let points = parse_points(alloc, words)?;
    Ok(Statement::Contour(HeldContour { shape_type, points }))
}

// The open path, after the word `line`.
fn parse_open_path<A: Allocator>(alloc: A, words: Words<'_>) -> Result<Statement<A>, LineError>
    ensures { MatchResult result
        (λ s. Says (codes "line" ∷ words_left words.entry) s)
        (λ e. IsFaultOf (codes "line" ∷ words_left words.entry) e) }
{
    let points = parse_points(alloc, words)?;
    Ok(Statement::OpenPath(points))
}
