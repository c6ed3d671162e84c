//! The parts of a text at its first separator.

ghost use Rattle.std.specs.Prelude.{◌≡◌, ◌==◌, ◌<◌, [], ◌∷◌, MatchOption, IfSome, length};
ghost use Rattle.std.specs.List.{slice_split};

/// The bytes before the first separator, and those after it.
pub(crate) fn split_once(text: &[u8], separator: u8) -> Option<(&[u8], &[u8])>
    ensures parts { MatchOption result
        (slice_split (λ b. b == separator) text.now ≡ text.now ∷ [])
        (λ p. slice_split (λ b. b == separator) text.now
        ≡ p.0.now ∷ slice_split (λ b. b == separator) p.1.now) }
    ensures shorter { IfSome result (λ p. length p.1.now < length text.now) }
{
    let at = text.iter().position(|b| *b == separator)?;
    Some((&text[..at], &text[at + 1..]))
}
