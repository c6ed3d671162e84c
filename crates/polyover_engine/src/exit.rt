//! How a run of the engine ends.

ghost use Rattle.std.specs.Prelude.{◌≡◌};
ghost use Rattle.overlay_geom.specs.declared.error.OverlayError.TheVariants.{Memory};
ghost use Rattle.polyover_engine.specs.declared.exit.Exit.TheVariants.{Refused};
ghost use Rattle.polyover_engine.specs.Exits.{exit_of_input};

use overlay_geom::error::OverlayError;
use polyover_text::input::InputError;
use std::alloc::{AllocError, AllocFailed};

/// How a run ended.
#[derive(Debug, PartialEq, Eq, Drop)]
pub enum Exit {
    /// The answer was written.
    Answered,
    /// The answer was refused, and nothing was written.
    Refused(OverlayError),
    /// This line is bad, counted from 1, and nothing was written.
    BadInput(usize),
    /// Reading or writing failed.
    Io,
}

impl From<InputError> for Exit {
    ghost from_gives = { λ e x. x ≡ exit_of_input e };

    fn from(error: InputError) -> Exit {
        match error {
            InputError::Memory => Exit::Refused(OverlayError::Memory),
            InputError::BadLine(number) => Exit::BadInput(number),
        }
    }
}

impl From<OverlayError> for Exit {
    ghost from_gives = { λ e x. x ≡ Refused e };

    fn from(error: OverlayError) -> Exit {
        Exit::Refused(error)
    }
}

impl From<AllocError> for Exit {
    ghost from_gives = { λ _ x. x ≡ Refused Memory };

    fn from(_error: AllocError) -> Exit {
        Exit::Refused(OverlayError::Memory)
    }
}

impl<T: Drop> From<AllocFailed<T>> for Exit {
    ghost from_gives = { λ _ x. x ≡ Refused Memory };

    fn from(_error: AllocFailed<T>) -> Exit {
        Exit::Refused(OverlayError::Memory)
    }
}
