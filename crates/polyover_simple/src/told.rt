//! What C is given of a simplification.

ghost use Rattle.std.specs.Prelude.{◌≡◌};
ghost use Rattle.polyover_calls.specs.Held.{arrays_at_32, arrays_at_64, arrays_of};
ghost use Rattle.polyover_calls.specs.Statuses.{code_of};

use polyover_calls::held::{Held32, Held64, HeldOutcome};

/// What a call hands out, how it ends, and 1 where the contours stay as they are given, else 0.
#[derive(Clone, Copy)]
pub struct Told<'a, I> {
    pub(crate) outcome: HeldOutcome<'a, I>,
    pub(crate) as_given: u32,
}

/// Gives C the arrays and the number, and returns the code of the status.
pub fn give_told<'a>(told: &Told<'a, i64>, held: &mut Held64<'a>, as_given: &mut u32) -> u32
    ensures held { arrays_at_64 held.new ≡ arrays_of told.now.outcome.held }
    ensures as_given { as_given.new ≡ told.now.as_given }
    ensures code { result ≡ code_of told.now.outcome.status }
{
    *as_given = told.as_given;
    held.give(&told.outcome)
}

/// `give_told` at 32 bits.
pub fn give_told_32<'a>(told: &Told<'a, i32>, held: &mut Held32<'a>, as_given: &mut u32) -> u32
    ensures held { arrays_at_32 held.new ≡ arrays_of told.now.outcome.held }
    ensures as_given { as_given.new ≡ told.now.as_given }
    ensures code { result ≡ code_of told.now.outcome.status }
{
    *as_given = told.as_given;
    held.give(&told.outcome)
}
