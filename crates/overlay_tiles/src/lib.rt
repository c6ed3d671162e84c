//! Shapes sliced by grids into tiles, each in one cell.
#![tactic(auto)]

pub mod grid;
pub mod lines;
pub mod multiples;
pub mod only_tiles;
pub mod slice;
pub mod span;
