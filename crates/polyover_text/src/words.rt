//! The words of a line.

use crate::split::split_once;

/// The words of a text in order: its parts between spaces, but for the empty ones.
#[derive(Drop)]
pub struct Words<'a> {
    rest: &'a [u8],
}

impl<'a> Words<'a> {
    ghost use Rattle.std.specs.Prelude.{◌≡◌};
    ghost use Rattle.polyover_text.specs.Grammar.{words};
    ghost use Rattle.polyover_text.specs.Words.{words_left};

    /// The words of `text`.
    pub fn new(text: &'a [u8]) -> Self
        ensures { words_left result ≡ words text.entry.now }
    {
        Words { rest: text }
    }
}

impl<'a> Iterator for Words<'a> {
    ghost use Rattle.std.specs.Iterator.{YieldsFirstRef, item_count};
    ghost use Rattle.polyover_text.specs.Words.{words_left};

    type Item = &'a [u8];

    ghost next_gives = { YieldsFirstRef words_left };

    ghost remaining = { item_count words_left };

    fn next(&mut self) -> Option<&'a [u8]> {
        while let Some((word, rest)) = split_once(self.rest, b' ') {
            self.rest = rest;
            if !word.is_empty() {
                return Some(word);
            }
        }
        let last = self.rest;
        self.rest = &[];
        (!last.is_empty()).then_some(last)
    }
}
