//! The exit of a run is the only one that its contract allows of the input.

ghost use Rattle.polyover_engine.specs.Determined.{OneBadInput, BadInputsHaveNoAnswer, BadInputsAreNotRefused};
ghost use Rattle.polyover_engine.specs.Determined.{OneTextOfLocations, OneExit};

use crate::read_turns::ReadTurns;
use crate::write_turns::WriteTurns;

/// A bad input is bad at one line; no text answers it, and what it asks for is not refused, but for memory.
pub fn one_bad_input()
    ensures one { OneBadInput }
    ensures no_answer { BadInputsHaveNoAnswer }
    ensures not_refused { BadInputsAreNotRefused }
{}

/// One text tells where points lie.
pub fn one_text_of_locations()
    ensures { OneTextOfLocations }
{}

/// Two exits that tell of one input are equal: it was answered, or this line is bad.
pub fn one_exit<Rd: ReadTurns, Wr: WriteTurns>()
    ensures { OneExit Rd.remaining Rd.reads Wr.contents Wr.writes Wr.flushes }
{}
