//! The refusals of the overlay crates.

ghost use Rattle.overlay_geom.specs.declared.error.OverlayError.TheVariants.{Memory};
ghost use Rattle.std.specs.Prelude.{◌≡◌};

use std::alloc::{AllocError, AllocFailed};
use thiserror::Error;

/// Reason why a call refused.
#[derive(Debug, PartialEq, Eq, Drop, Error)]
pub enum OverlayError {
    /// Memory for a growth was refused.
    #[error("out of memory")]
    Memory,
    /// After 64 rounds of splitting, two different edges still meet in a point that is not an end of both.
    #[error("splitting did not settle")]
    NotSettled,
    /// An addition or a round of splitting would bring the total weight to 2^31. The weight sums the absolute counts of
    /// all edges.
    #[error("too many edges")]
    TooManyEdges,
    /// An earlier query was refused, and the builder was not cleared since then.
    #[error("builder failed")]
    Failed,
}

impl From<AllocError> for OverlayError {
    ghost from_gives = { λ _ e. e ≡ Memory };

    /// Returns `Memory`.
    fn from(_error: AllocError) -> OverlayError {
        OverlayError::Memory
    }
}

impl<T: Drop> From<AllocFailed<T>> for OverlayError {
    ghost from_gives = { λ _ e. e ≡ Memory };

    /// Returns `Memory`, and drops the value that found no room.
    fn from(_error: AllocFailed<T>) -> OverlayError {
        OverlayError::Memory
    }
}
