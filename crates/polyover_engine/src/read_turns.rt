//! Readers that are asked turn by turn.

ghost use Rattle.std.specs.Prelude.{ℕ, List, Option, length};
ghost use Rattle.polyover_engine.specs.Reading.{IsReadTurn, GivesBytes};
ghost use Rattle.polyover_engine.specs.declared.turn.Turn.{Turn};

use crate::turn::{Turn, turn_of};
use std::io::Read;

/// What the engine reads from, turn by turn: each `Read`.
pub trait ReadTurns {
    // The bytes that are still to be read, where they are known.
    ghost remaining: { Self → Option (List ℕ) };

    // One turn, with room for so many bytes, may end so, and lead from the first state to the second.
    ghost reads: { Self → ℕ → Turn → Self → Type 0 };

    /// Reads once into `buf`.
    fn read_turn(&mut self, buf: &mut [u8]) -> Turn
        ensures bytes { GivesBytes (remaining self.old) (remaining self.new) buf.new result }
        ensures turn { reads self.old (length buf.new) result self.new };
}

/// Each `Read`: a turn is one call of its `read`.
impl<R: Read> ReadTurns for R {
    ghost remaining = { R.remaining };

    ghost reads = { IsReadTurn R.remaining };

    fn read_turn(&mut self, buf: &mut [u8]) -> Turn {
        turn_of(&self.read(buf))
    }
}
