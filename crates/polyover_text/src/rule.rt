//! Overlay rules in words.

ghost use Rattle.std.specs.Prelude.{◌≡◌, ◌≢◌, MatchOption};
ghost use Rattle.overlay_geom.specs.declared.overlay_rule.OverlayRule.{OverlayRule};
ghost use Rattle.polyover_text.specs.Grammar.{rule_name};

use overlay_geom::overlay_rule::OverlayRule;

/// The overlay rule that a word names.
pub(crate) fn parse_overlay_rule(word: &[u8]) -> Option<OverlayRule>
    ensures { MatchOption result
        ((rule : OverlayRule) → word.now ≢ rule_name rule)
        (λ rule. word.now ≡ rule_name rule) }
{
    match word {
        b"Subject" => Some(OverlayRule::Subject),
        b"Clip" => Some(OverlayRule::Clip),
        b"Intersect" => Some(OverlayRule::Intersect),
        b"Union" => Some(OverlayRule::Union),
        b"Difference" => Some(OverlayRule::Difference),
        b"InverseDifference" => Some(OverlayRule::InverseDifference),
        b"Xor" => Some(OverlayRule::Xor),
        _ => None,
    }
}
