//! How one turn of reading or writing ended.

ghost use Rattle.polyover_engine.specs.Turns.{IsTurnOf};

use std::io;
use std::io::ErrorKind;

/// How one turn of reading or writing ended.
#[derive(Clone, Copy)]
pub enum Turn {
    /// Number of bytes that were read, or taken.
    Done(usize),
    /// It was interrupted, and is to be tried again.
    Interrupted,
    /// It is a fault: an error other than an interruption.
    Failed,
}

// The turn that a call's own answer makes.
pub(crate) fn turn_of(answer: &io::Result<usize>) -> Turn
    ensures { IsTurnOf answer.now result }
{
    match answer {
        Ok(count) => Turn::Done(*count),
        Err(error) if error.kind() == ErrorKind::Interrupted => Turn::Interrupted,
        Err(_) => Turn::Failed,
    }
}
