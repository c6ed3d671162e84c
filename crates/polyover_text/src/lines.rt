//! The lines of the input.

ghost use Rattle.std.specs.Prelude.{◌≡◌};
ghost use Rattle.std.specs.Str.Lines.{strip_carriage_return};

use crate::split::split_once;

/// The lines of a text in order. Each ends with LF, less a CR before it, or with the text.
#[derive(Drop)]
pub struct Lines<'a> {
    rest: &'a [u8],
}

impl<'a> Lines<'a> {
    ghost use Rattle.std.specs.Prelude.{◌≡◌};
    ghost use Rattle.std.specs.Str.Lines.{lines};
    ghost use Rattle.polyover_text.specs.Lines.{lines_left};

    /// The lines of `text`.
    pub fn new(text: &'a [u8]) -> Self
        ensures { lines_left result ≡ lines text.entry.now }
    {
        Lines { rest: text }
    }
}

impl<'a> Iterator for Lines<'a> {
    ghost use Rattle.std.specs.Iterator.{YieldsFirstRef, item_count};
    ghost use Rattle.polyover_text.specs.Lines.{lines_left};

    type Item = &'a [u8];

    ghost next_gives = { YieldsFirstRef lines_left };

    ghost remaining = { item_count lines_left };

    fn next(&mut self) -> Option<&'a [u8]> {
        let Some((line, rest)) = split_once(self.rest, b'\n') else {
            let last = self.rest;
            self.rest = &[];
            return (!last.is_empty()).then_some(last);
        };
        self.rest = rest;
        Some(without_carriage_return(line))
    }
}

// The line without the one CR at its end, if it has one.
fn without_carriage_return(line: &[u8]) -> &[u8]
    ensures { result.now ≡ strip_carriage_return line.now }
{
    match line {
        [front @ .., b'\r'] => front,
        _ => line,
    }
}
