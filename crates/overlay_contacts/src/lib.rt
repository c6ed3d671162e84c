//! Relations of shapes as given: how the closures of their interiors meet, and all seven relations. Nothing is rounded.
#![tactic(auto)]

pub mod contacts;
mod edge_sides;
pub mod relations;
pub mod settled;
