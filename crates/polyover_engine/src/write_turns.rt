//! Writers that are asked turn by turn.

ghost use Rattle.std.specs.Prelude.{ℕ, List, Option, length};
ghost use Rattle.std.specs.Io.KnownBytes.{Keeps};
ghost use Rattle.polyover_engine.specs.Writing.{IsWriteTurn, IsFlushTurn, TakesBytes};
ghost use Rattle.polyover_engine.specs.declared.turn.Turn.{Turn};

use crate::turn::{Turn, turn_of};
use std::io::Write;

/// What the engine writes to, turn by turn: each `Write`.
pub trait WriteTurns {
    // The bytes that it took, where they are known.
    ghost contents: { Self → Option (List ℕ) };

    // One turn of writing so many bytes may end so, and lead from the first state to the second.
    ghost writes: { Self → ℕ → Turn → Self → Type 0 };

    // One turn of flushing may end so, and lead from the first state to the second.
    ghost flushes: { Self → Turn → Self → Type 0 };

    /// Writes the text, or a beginning of it.
    fn write_turn(&mut self, text: &[u8]) -> Turn
        ensures bytes { TakesBytes (contents self.old) (contents self.new) text.now result }
        ensures turn { writes self.old (length text.now) result self.new };

    /// Flushes what was written.
    fn flush_turn(&mut self) -> Turn
        ensures bytes { Keeps (contents self.old) (contents self.new) }
        ensures turn { flushes self.old result self.new };
}

/// Each `Write`: a turn is one call of its `write`, or of its `flush`.
impl<W: Write> WriteTurns for W {
    ghost contents = { W.contents };

    ghost writes = { IsWriteTurn W.contents };

    ghost flushes = { IsFlushTurn W.contents };

    fn write_turn(&mut self, text: &[u8]) -> Turn {
        turn_of(&self.write(text))
    }

    fn flush_turn(&mut self) -> Turn {
        match self.flush() {
            Ok(()) => Turn::Done(0),
            Err(error) => turn_of(&Err(error)),
        }
    }
}
