//! The engine: an input is read, parsed, answered and written.

ghost use Rattle.std.specs.Prelude.{⊤, MatchResult, string_bytes};
ghost use Rattle.polyover_engine.specs.Engine.{Endings, EndsAs, HasAnswer};

use crate::answer::answer_text;
use crate::exit::Exit;
use crate::read::read_all;
use crate::read_turns::ReadTurns;
use crate::room::room_for;
use crate::write::write_all;
use crate::write_turns::WriteTurns;
use polyover_text::input::parse_input;
use std::alloc::Allocator;

/// Reads everything from the reader, and writes the answer to the writer.
///
/// Faults are found in this order: the whole input is read, all its lines are parsed, the command runs, the whole
/// answer is written. `Memory` may come in any of these steps but the last, in place of what would follow.
///
/// The reader may be any `Read`, the writer any `Write`.
#[tactic(auto, using(crate::proofs::Endings::ends_untouched, crate::proofs::Endings::ends_writing))]
pub fn run<A: Allocator + Clone, Rd: ReadTurns, Wr: WriteTurns>(
    alloc: A,
    reader: &mut Rd,
    writer: &mut Wr,
) -> Exit
    ensures { EndsAs Rd.remaining Rd.reads Wr.contents Wr.writes Wr.flushes reader.old reader.new writer.old writer.new
        result }
{
    match answer(&alloc, reader) {
        Ok(text) => write_all(writer, text.as_bytes()),
        Err(exit) => exit,
    }
}

// The text of the answer to what the reader has left.
fn answer<A: Allocator + Copy, Rd: ReadTurns>(alloc: A, reader: &mut Rd) -> Result<String<A>, Exit>
    ensures { MatchResult result
        (λ text. HasAnswer Rd.remaining Rd.reads reader.old reader.new (string_bytes text))
        (λ exit. Endings Rd.remaining Rd.reads reader.old reader.new ⊤ (λ _. ⊥) (λ _. ⊥) exit) }
{
    let bytes = read_all(alloc, reader)?;
    let _room = room_for(alloc, bytes.len());
    let input = parse_input(alloc, &bytes)?;
    drop(bytes);
    answer_text(alloc, input)
}
