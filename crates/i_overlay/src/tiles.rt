//! Shapes sliced by grids into tiles, each in one cell.

pub use overlay_tiles::grid::{Grid, grid_fits};
pub use overlay_tiles::slice::{slice_by_grid, slice_by_grid_with_solver};
