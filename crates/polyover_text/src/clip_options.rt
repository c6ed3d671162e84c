//! Options of a clip in words.

ghost use Rattle.std.specs.Prelude.{◌≡◌, ◌∷◌, true, false, MatchOption};
ghost use Rattle.polyover_text.specs.declared.clip_options.KeptParts.{KeptParts};
ghost use Rattle.polyover_text.specs.ClipOptions.{SetsClipOption, SetsNoClipOption};
ghost use Rattle.polyover_text.specs.Grammar.{Line, SetClipOptions, default_clip};
ghost use Rattle.polyover_text.specs.Words.{words_left};

use crate::words::Words;

/// Which parts of lines a clip keeps.
#[derive(Clone, Copy)]
pub struct KeptParts {
    /// Whether the parts outside of the shape are kept, in place of those inside.
    pub invert: bool,
    /// Whether the parts on its boundary are kept too.
    pub boundary_included: bool,
}

/// The options that the words set, read from left to right, each at most once. `None` where a word names no
/// option, or one that is set.
pub(crate) fn parse_clip_options(mut words: Words<'_>) -> Option<KeptParts>
    ensures { MatchOption result
        ((options : KeptParts) → ¬ (SetClipOptions default_clip (words_left words.entry) options))
        (λ options. SetClipOptions default_clip (words_left words.entry) options) }
{
    let mut options = KeptParts::new();
    while let Some(word) = words.next() {
        options = options.with(word)?;
    }
    Some(options)
}

impl KeptParts {
    // The parts inside are kept, and none on the boundary.
    fn new() -> KeptParts
        ensures { result ≡ default_clip }
    {
        KeptParts {
            invert: false,
            boundary_included: false,
        }
    }

    // The options with the one set that the word names. `None` where it names none, or one that is set.
    fn with(self, word: &[u8]) -> Option<KeptParts>
        ensures { MatchOption result
            ((ws : Line) → SetsNoClipOption self (word.now ∷ ws))
            (λ new. (ws : Line) → SetsClipOption self (word.now ∷ ws) new ws) }
    {
        match word {
            b"invert" => self.inverted(),
            b"boundary" => self.with_boundary(),
            _ => None,
        }
    }

    // The options with the parts outside kept, where they are not so already.
    fn inverted(self) -> Option<KeptParts>
        ensures { MatchOption result
            (self.invert ≡ true)
            (λ new. (self.invert ≡ false) × (new ≡ record self { invert = true })) }
    {
        if self.invert {
            return None;
        }
        Some(KeptParts {
            invert: true,
            ..self
        })
    }

    // The options with the parts on the boundary kept too, where they are not so already.
    fn with_boundary(self) -> Option<KeptParts>
        ensures { MatchOption result
            (self.boundary_included ≡ true)
            (λ new. (self.boundary_included ≡ false) × (new ≡ record self { boundary_included = true })) }
    {
        if self.boundary_included {
            return None;
        }
        Some(KeptParts {
            boundary_included: true,
            ..self
        })
    }
}
