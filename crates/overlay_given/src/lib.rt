//! Relations that are exact on the contours as given: a walk along merged edges tells the filled sides of all their
//! pieces. Nothing is rounded.
#![tactic(auto)]

pub mod beside;
mod crossing;
pub mod first;
mod heights;
pub mod laws;
mod one_edge;
pub mod relations;
mod shared;
pub mod sides;
mod start;
mod steps;
pub mod uncrossed;
pub mod walk;
