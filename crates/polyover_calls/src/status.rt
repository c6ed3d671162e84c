//! How a call ends.

ghost use Rattle.std.specs.Prelude.{◌≡◌};
ghost use Rattle.polyover_calls.specs.Statuses.{code_of, status_of_error, status_of_fault};
ghost use Rattle.polyover_calls.specs.declared.status.Status.TheVariants.{Memory};

use crate::fault::Fault;
use overlay_geom::error::OverlayError;
use std::alloc::{AllocError, AllocFailed};

/// How a call ends.
#[derive(Debug, Clone, Copy, PartialEq, Eq)]
pub enum Status {
    /// Answered.
    Done,
    /// Memory was refused.
    Memory,
    /// Ends do not fit the coordinates.
    BadEnds,
    /// A coordinate is out of range.
    OutOfRange,
    /// A contour is not resolved.
    NotResolved,
    /// No overlay rule has the number.
    BadRule,
    /// No fill rule has the number.
    BadFill,
    /// An option has a number that stands for nothing.
    BadOption,
    /// Edges still meet after all rounds of splitting.
    NotSettled,
    /// The edges weigh 2^31 or more.
    TooManyEdges,
    /// The arrays for the answer are too small.
    TooSmall,
}

impl Status {
    /// The number that C knows the status by.
    pub fn code(self) -> u32
        ensures { result ≡ code_of self }
    {
        match self {
            Status::Done => 0,
            Status::Memory => 1,
            Status::BadEnds => 2,
            Status::OutOfRange => 3,
            Status::NotResolved => 4,
            Status::BadRule => 5,
            Status::BadFill => 6,
            Status::BadOption => 7,
            Status::NotSettled => 8,
            Status::TooManyEdges => 9,
            Status::TooSmall => 10,
        }
    }
}

impl From<Fault> for Status {
    ghost from_gives = { λ f s. s ≡ status_of_fault f };

    fn from(fault: Fault) -> Status {
        match fault {
            Fault::Memory => Status::Memory,
            Fault::Ends => Status::BadEnds,
            Fault::Range => Status::OutOfRange,
        }
    }
}

impl From<OverlayError> for Status {
    ghost from_gives = { λ e s. s ≡ status_of_error e };

    /// Returns the status for the refusal; `Memory` for `Failed`, which no new builder answers.
    fn from(error: OverlayError) -> Status {
        match error {
            OverlayError::Memory => Status::Memory,
            OverlayError::NotSettled => Status::NotSettled,
            OverlayError::TooManyEdges => Status::TooManyEdges,
            OverlayError::Failed => Status::Memory,
        }
    }
}

impl From<AllocError> for Status {
    ghost from_gives = { λ _ s. s ≡ Memory };

    fn from(_error: AllocError) -> Status {
        Status::Memory
    }
}

impl<T: Drop> From<AllocFailed<T>> for Status {
    ghost from_gives = { λ _ s. s ≡ Memory };

    fn from(_error: AllocFailed<T>) -> Status {
        Status::Memory
    }
}
