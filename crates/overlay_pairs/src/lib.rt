//! The pairs of edges that may meet: boxes, strips and bundles of edges, and the edges that changed.
#![tactic(auto)]

mod beside;
pub mod bundles;
pub mod changed;
pub mod extents;
pub mod fans;
mod lines;
pub mod near;
mod sample;
pub mod settle;
mod spans;
pub mod strips;
