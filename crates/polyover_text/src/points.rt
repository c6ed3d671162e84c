//! Points in words.

ghost use Rattle.std.specs.Prelude.{◌≡◌, [], ◌∷◌, List, MatchResult, MatchOption, codes};
ghost use Rattle.overlay_geom.specs.Plane.{Point};
ghost use Rattle.overlay_geom.specs.Points.{plain_point};
ghost use Rattle.polyover_text.specs.Grammar.{ArePoints, GivesPoint};
ghost use Rattle.polyover_text.specs.Points.{points_at, IsFirstPoint};
ghost use Rattle.polyover_text.specs.Words.{words_left};

use crate::line_error::LineError;
use crate::number::parse_coordinate;
use crate::words::Words;
use overlay_geom::point::IntPoint;
use std::alloc::Allocator;

/// The points whose coordinates the words are, x before y.
pub(crate) fn parse_points<A: Allocator>(
    alloc: A,
    mut words: Words<'_>,
) -> Result<Vec<IntPoint<i64>, A>, LineError>
    ensures { MatchResult result
        (λ points. ArePoints (words_left words.entry) (points_at points.items))
        (λ e. e ≡ LineError.Bad → (ps : List Point) → ¬ (ArePoints (words_left words.entry) ps)) }
{
    let mut points = Vec::new(alloc);
    while let Some(point) = next_point(&mut words)? {
        points.push(point)?;
    }
    Ok(points)
}

/// The point whose coordinates the two words are, after the word `point`.
pub(crate) fn parse_point(mut words: Words<'_>) -> Option<IntPoint<i64>>
    ensures { MatchOption result
        ((p : Point) → ¬ (GivesPoint (codes "point" ∷ words_left words.entry) p))
        (λ p. GivesPoint (codes "point" ∷ words_left words.entry) (plain_point (λ z. z) p)) }
{
    let Ok(Some(point)) = next_point(&mut words) else {
        return None;
    };
    match words.next() {
        None => Some(point),
        Some(_) => None,
    }
}

// The point that the next two words give, and `None` after the last word. The only refusal is `Bad`.
fn next_point(words: &mut Words<'_>) -> Result<Option<IntPoint<i64>>, LineError>
    ensures { MatchResult result
        (λ next. MatchOption next
        (words_left words.old ≡ [])
        (λ p. IsFirstPoint (words_left words.old) p (words_left words.new)))
        (λ e. (e ≡ LineError.Bad) × ((ps : List Point) → ¬ (ArePoints (words_left words.old) ps))) }
{
    let Some(x) = words.next() else {
        return Ok(None);
    };
    let y = words.next().ok_or(LineError::Bad)?;
    let x = parse_coordinate(x).ok_or(LineError::Bad)?;
    let y = parse_coordinate(y).ok_or(LineError::Bad)?;
    Ok(Some(IntPoint::new(x, y)))
}
