//! What the program says of how a run ended.

ghost use Rattle.std.specs.Prelude.{◌≡◌, Some};
ghost use Rattle.polyover.specs.Statuses.{status_of, refusal_number_of, message_of, text_of_message};

use crate::exit::Exit;
use overlay_geom::error::OverlayError;
use std::fmt;
use std::fmt::{Display, Formatter, Write};

/// What the program says of how a run ended.
#[derive(Drop)]
pub struct Ending {
    /// The message on standard error.
    pub message: Message,
    /// The status that the program ends with.
    pub status: u8,
}

/// A message on standard error.
#[derive(Drop)]
pub enum Message {
    /// None.
    Nothing,
    /// `refused E`, the number of the refusal, and LF.
    Refused(u8),
    /// `line`, its number, `: bad input`, and LF.
    BadLine(usize),
    /// `io failed`, and LF.
    Failed,
}

impl Display for Message {
    ghost output = { λ message. Some (text_of_message message) };

    fn fmt<W: Write>(&self, f: &mut Formatter<W>) -> fmt::Result {
        match self {
            Message::Nothing => Ok(()),
            Message::Refused(number) => write!(f, "refused E{number}\n"),
            Message::BadLine(line) => write!(f, "line {line}: bad input\n"),
            Message::Failed => write!(f, "io failed\n"),
        }
    }
}

/// The message on standard error and the status.
pub(crate) fn report(exit: &Exit) -> Ending
    ensures message { text_of_message result.message ≡ message_of exit.now }
    ensures status { result.status ≡ status_of exit.now }
{
    match exit {
        Exit::Answered => Ending {
            message: Message::Nothing,
            status: 0,
        },
        Exit::Refused(error) => Ending {
            message: Message::Refused(refusal_number(error)),
            status: 1,
        },
        Exit::BadInput(line) => Ending {
            message: Message::BadLine(*line),
            status: 2,
        },
        Exit::Io => Ending {
            message: Message::Failed,
            status: 3,
        },
    }
}

// The number by which the program names a refusal.
fn refusal_number(error: &OverlayError) -> u8
    ensures { result ≡ refusal_number_of error.now }
{
    match error {
        OverlayError::Memory => 1,
        OverlayError::NotSettled => 2,
        OverlayError::TooManyEdges => 3,
        OverlayError::Failed => 4,
    }
}
