//! Writing the whole answer.

ghost use Rattle.std.specs.Prelude.{[]};
ghost use Rattle.polyover_engine.specs.WriteAll.{EndsWriting};

use crate::exit::Exit;
use crate::turn::Turn;
use crate::write_turns::WriteTurns;

/// Writes the text, and flushes it. `Answered`, or `Io` where writing failed, and a beginning of the text was
/// written. A write that is interrupted is tried again.
pub(crate) fn write_all<W: WriteTurns>(writer: &mut W, text: &[u8]) -> Exit
    ensures { EndsWriting W.contents W.writes W.flushes text.now writer.old writer.new result }
{
    let mut rest = text;
    let mut turns_left = u64::MAX;
    while !rest.is_empty() {
        if turns_left == 0 {
            return Exit::Io;
        }
        turns_left -= 1;
        match writer.write_turn(rest) {
            Turn::Done(0) | Turn::Failed => return Exit::Io,
            Turn::Done(count) => rest = &rest[count..],
            Turn::Interrupted => {}
        }
    }
    flush(writer)
}

// Flushes the writer. A flush that is interrupted is tried again.
fn flush<W: WriteTurns>(writer: &mut W) -> Exit
    ensures { EndsWriting W.contents W.writes W.flushes [] writer.old writer.new result }
{
    let mut turns_left = u64::MAX;
    while turns_left > 0 {
        turns_left -= 1;
        match writer.flush_turn() {
            Turn::Done(_) => return Exit::Answered,
            Turn::Interrupted => {}
            Turn::Failed => return Exit::Io,
        }
    }
    Exit::Io
}
