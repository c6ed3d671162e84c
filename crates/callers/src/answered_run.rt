//! A run of the engine.

ghost use Rattle.std.specs.Prelude.{◌≡◌, true, List, ℕ};
ghost use Rattle.polyover_engine.specs.Writing.{IsWritten};

use polyover_engine::engine::run;
use polyover_engine::exit::Exit;
use polyover_engine::read_turns::ReadTurns;
use polyover_engine::write_turns::WriteTurns;
use std::alloc::Allocator;

/// Returns whether an answer was written.
pub fn is_answered<A: Allocator + Clone, R: ReadTurns, W: WriteTurns>(
    alloc: A,
    reader: &mut R,
    writer: &mut W,
) -> bool
    ensures { result ≡ true → (text : List ℕ) × IsWritten W.contents W.writes W.flushes text writer.old writer.new }
{
    match run(alloc, reader, writer) {
        Exit::Answered => true,
        _ => false,
    }
}
