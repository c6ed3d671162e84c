//! Fill rules in words.

ghost use Rattle.std.specs.Prelude.{◌≡◌, ◌≢◌, MatchOption};
ghost use Rattle.overlay_geom.specs.declared.fill_rule.FillRule.{FillRule};
ghost use Rattle.polyover_text.specs.Grammar.{fill_name};

use overlay_geom::fill_rule::FillRule;

/// The fill rule that a word names.
pub(crate) fn parse_fill_rule(word: &[u8]) -> Option<FillRule>
    ensures { MatchOption result
        ((fill : FillRule) → word.now ≢ fill_name fill)
        (λ fill. word.now ≡ fill_name fill) }
{
    match word {
        b"EvenOdd" => Some(FillRule::EvenOdd),
        b"NonZero" => Some(FillRule::NonZero),
        b"Positive" => Some(FillRule::Positive),
        b"Negative" => Some(FillRule::Negative),
        _ => None,
    }
}
