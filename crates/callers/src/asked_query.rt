//! What an input asks for.

ghost use Rattle.std.specs.Prelude.{MatchResult};
ghost use Rattle.polyover_text.specs.Grammar.{input_lines};
ghost use Rattle.polyover_text.specs.Inputs.{IsNamedFault};

use polyover_text::input::{InputError, parse_input};
use polyover_text::query::Query;
use std::alloc::Allocator;

/// What the input asks for.
pub fn asked<A: Allocator + Copy>(alloc: A, text: &[u8]) -> Result<Query, InputError>
    ensures { MatchResult result (λ _. Unit {0}) (λ e. IsNamedFault (input_lines text.now) e) }
{
    Ok(parse_input(alloc, text)?.query)
}
