//! Reading the whole input.

ghost use Rattle.std.specs.Prelude.{MatchResult};
ghost use Rattle.polyover_engine.specs.ReadAll.{ReadsAll, StopsReading};

use crate::exit::Exit;
use crate::read_turns::ReadTurns;
use crate::turn::Turn;
use std::alloc::Allocator;

const CHUNK: usize = 4096;

/// All bytes that the reader has left. A read that is interrupted is tried again. `Io` comes where reading failed,
/// and `Refused(Memory)` where the bytes did not fit into memory.
pub(crate) fn read_all<A: Allocator, R: ReadTurns>(
    alloc: A,
    reader: &mut R,
) -> Result<Vec<u8, A>, Exit>
    ensures { MatchResult result
        (λ all. ReadsAll R.remaining R.reads reader.old reader.new all.items)
        (λ exit. StopsReading R.remaining R.reads reader.old reader.new exit) }
{
    let mut all = Vec::new(alloc);
    let mut chunk = [0; CHUNK];
    let mut turns_left = u64::MAX;
    while turns_left > 0 {
        turns_left -= 1;
        match reader.read_turn(&mut chunk) {
            Turn::Done(0) => return Ok(all),
            Turn::Done(count) => all.extend_from_slice(&chunk[..count])?,
            Turn::Interrupted => {}
            Turn::Failed => return Err(Exit::Io),
        }
    }
    Err(Exit::Io)
}
