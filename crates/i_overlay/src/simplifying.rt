//! Contours that are simple as they are given: what becomes of them where they are simplified.

pub(crate) mod arranged_alone;
mod direction;
pub(crate) mod flat;
pub mod laws;
pub mod outcome;
pub mod shapes;
pub mod simple;
