//! Why arrays are not read.

ghost use Rattle.polyover_calls.specs.declared.fault.Fault.TheVariants.{Memory};
ghost use Rattle.std.specs.Prelude.{◌≡◌};

use std::alloc::{AllocError, AllocFailed};
use thiserror::Error;

/// Why arrays are not read.
#[derive(Debug, PartialEq, Eq, Drop, Error)]
pub enum Fault {
    /// Memory was refused.
    #[error("out of memory")]
    Memory,
    /// The count of coordinates is odd, an end is below the one before it, or the last end is not the count of points.
    #[error("ends do not fit the coordinates")]
    Ends,
    /// A coordinate is out of the coordinate range.
    #[error("a coordinate is out of range")]
    Range,
}

impl From<AllocError> for Fault {
    ghost from_gives = { λ _ e. e ≡ Memory };

    /// Returns `Memory`.
    fn from(_error: AllocError) -> Fault {
        Fault::Memory
    }
}

impl<T: Drop> From<AllocFailed<T>> for Fault {
    ghost from_gives = { λ _ e. e ≡ Memory };

    /// Returns `Memory`, and drops the value that found no room.
    fn from(_error: AllocFailed<T>) -> Fault {
        Fault::Memory
    }
}
