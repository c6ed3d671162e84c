//! The coordinate types of the overlay crates.

use crate::number::IntNumber;

/// A coordinate type of the overlay crates: `i16`, `i32` or `i64`.
pub trait OverlayInt: IntNumber {}

impl OverlayInt for i16 {}

impl OverlayInt for i32 {}

impl OverlayInt for i64 {}
