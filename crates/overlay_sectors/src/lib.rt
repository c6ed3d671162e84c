//! The sectors round a point among counted edges, and where it lies by them: nothing is rounded.
#![tactic(auto)]

pub mod blocks;
pub mod flank;
pub mod form;
pub mod laws;
pub mod located;
pub mod near;
mod once;
pub mod seen;
