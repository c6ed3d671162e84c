//! Commands in words.

ghost use Rattle.std.specs.Prelude.{◌≡◌, [], ◌∷◌, MatchOption, IfSome, codes};
ghost use Rattle.overlay_geom.specs.declared.fill_rule.FillRule.{FillRule};
ghost use Rattle.polyover_text.specs.declared.query.Query.{Query};
ghost use Rattle.polyover_text.specs.declared.query.ClipQuery.{ClipQuery};
ghost use Rattle.polyover_text.specs.declared.query.OverlayQuery.{OverlayQuery};
ghost use Rattle.polyover_text.specs.declared.query.TilesQuery.{TilesQuery};
ghost use Rattle.polyover_text.specs.Grammar.{IsCommand, AsksOverlay, AsksClip, AsksTiles, fill_name};
ghost use Rattle.polyover_text.specs.Words.{words_left};

use crate::clip_options::parse_clip_options;
use crate::fill::parse_fill_rule;
use crate::number::parse_side;
use crate::options::parse_options;
use crate::query::{ClipQuery, OverlayQuery, Query, TilesQuery};
use crate::rule::parse_overlay_rule;
use crate::words::Words;
use overlay_geom::fill_rule::FillRule;

/// What the command asks for, after the word `run`.
pub(crate) fn parse_command(mut words: Words<'_>) -> Option<Query>
    ensures { MatchOption result
        ((query : Query) → ¬ (IsCommand (codes "run" ∷ words_left words.entry) query))
        (λ query. IsCommand (codes "run" ∷ words_left words.entry) query) }
{
    match words.next()? {
        b"edges" => Some(Query::Edges(last_fill_rule(words)?)),
        b"overlay" => Some(Query::Overlay(parse_overlay(words)?)),
        b"hierarchy" => Some(Query::Hierarchy(parse_overlay(words)?)),
        b"relate" => Some(Query::Relate(last_fill_rule(words)?)),
        b"clip" => Some(Query::ClipLines(parse_clip(words)?)),
        b"slice" => Some(Query::Slice(last_fill_rule(words)?)),
        b"tiles" => Some(Query::Tiles(parse_tiles(words)?)),
        b"contains" => if_last(words, Query::Contains),
        b"locate" => if_last(words, Query::Locate),
        _ => None,
    }
}

// The query, where no word is left.
fn if_last(mut words: Words<'_>, query: Query) -> Option<Query>
    ensures last { MatchOption result (¬ (words_left words.entry ≡ [])) (λ _. words_left words.entry ≡ []) }
    ensures value { IfSome result (λ asked. asked ≡ query) }
{
    match words.next() {
        None => Some(query),
        Some(_word) => None,
    }
}

// The fill rule that the one word left names.
fn last_fill_rule(mut words: Words<'_>) -> Option<FillRule>
    ensures { MatchOption result
        ((fill : FillRule) → ¬ (words_left words.entry ≡ fill_name fill ∷ []))
        (λ fill. words_left words.entry ≡ fill_name fill ∷ []) }
{
    let fill_rule = parse_fill_rule(words.next()?)?;
    match words.next() {
        None => Some(fill_rule),
        Some(_) => None,
    }
}

// The rules and the options of an overlay.
fn parse_overlay(mut words: Words<'_>) -> Option<OverlayQuery>
    ensures { MatchOption result
        ((query : OverlayQuery) → ¬ (AsksOverlay (words_left words.entry) query))
        (λ query. AsksOverlay (words_left words.entry) query) }
{
    let overlay_rule = parse_overlay_rule(words.next()?)?;
    let fill_rule = parse_fill_rule(words.next()?)?;
    let output = parse_options(words)?;
    Some(OverlayQuery {
        overlay_rule,
        fill_rule,
        output,
    })
}

// The fill rule and the options of a clip.
fn parse_clip(mut words: Words<'_>) -> Option<ClipQuery>
    ensures { MatchOption result
        ((query : ClipQuery) → ¬ (AsksClip (words_left words.entry) query))
        (λ query. AsksClip (words_left words.entry) query) }
{
    let fill_rule = parse_fill_rule(words.next()?)?;
    let options = parse_clip_options(words)?;
    Some(ClipQuery { fill_rule, options })
}

// The fill rule of tiles, and the sides of a cell.
fn parse_tiles(mut words: Words<'_>) -> Option<TilesQuery>
    ensures { MatchOption result
        ((query : TilesQuery) → ¬ (AsksTiles (words_left words.entry) query))
        (λ query. AsksTiles (words_left words.entry) query) }
{
    let fill_rule = parse_fill_rule(words.next()?)?;
    let width = parse_side(words.next()?)?;
    let height = parse_side(words.next()?)?;
    match words.next() {
        None => Some(TilesQuery {
            fill_rule,
            width,
            height,
        }),
        Some(_) => None,
    }
}
