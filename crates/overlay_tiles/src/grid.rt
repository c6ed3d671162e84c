//! Grids of cells, and whether one can be laid across the points of a resource.

ghost use Rattle.std.specs.Prelude.{◌↔◌, All, IfSome, IsTrue};
ghost use Rattle.overlay_geom.specs.Points.{AllInRange};
ghost use Rattle.overlay_tiles.specs.Grids.{FitsGrid, HasFewLines, IsGridStep};
ghost use Rattle.overlay_tiles.specs.Spans.{AreBoundsInRange, plain_bounds, points_of_paths};

use crate::multiples::{are_few, is_less};
use crate::span::{IntBounds, bounds_of};
use overlay_geom::integer::OverlayInt;
use overlay_geom::number::IntNumber;
use overlay_geom::resource::IntShapeResource;

/// A grid of cells with a node at (0, 0): its lines are at the multiples of the width and of the height.
#[derive(Debug, Clone, Copy)]
pub struct Grid<I> {
    /// Width of a cell.
    pub width: I,
    /// Height of a cell.
    pub height: I,
}

/// Returns whether the resource can be sliced by the grid: width and height are at least 1 and in the coordinate range.
/// In each direction at most 1,000 lines pass strictly between the ends of the box of all points. The points are in the
/// coordinate range. It takes no memory.
pub fn grid_fits<I: OverlayInt, R0: IntShapeResource<I>>(resource: &R0, grid: Grid<I>) -> bool
    requires { All (AllInRange I.limit) (R0.paths resource.now) }
    ensures { IsTrue result
        ↔ FitsGrid I.limit (I.whole grid.width) (I.whole grid.height) (points_of_paths (R0.paths resource.now)) }
{
    has_cells(grid) && has_few_lines(grid, bounds_of(resource))
}

// Whether the grid has cells: they can be as wide and as high.
fn has_cells<I: IntNumber>(grid: Grid<I>) -> bool
    ensures { IsTrue result ↔ (IsGridStep I.limit (I.whole grid.width) × IsGridStep I.limit (I.whole grid.height)) }
{
    is_grid_step(grid.width) && is_grid_step(grid.height)
}

// Whether few lines of the grid pass across the box, if there is one.
fn has_few_lines<I: IntNumber>(grid: Grid<I>, bounds: Option<IntBounds<I>>) -> bool
    requires width { IsGridStep I.limit (I.whole grid.width) }
    requires height { IsGridStep I.limit (I.whole grid.height) }
    requires bounds { IfSome bounds (λ b. AreBoundsInRange I.limit (plain_bounds I.whole b)) }
    ensures { IsTrue result ↔ HasFewLines (I.whole grid.width) (I.whole grid.height) I.whole bounds }
{
    match bounds {
        Some(b) => are_few(grid.width, b.x) && are_few(grid.height, b.y),
        None => true,
    }
}

// Whether a cell can be as wide, or as high.
fn is_grid_step<I: IntNumber>(step: I) -> bool
    ensures { IsTrue result ↔ IsGridStep I.limit (I.whole step) }
{
    step.is_in_range() && is_less(step.minus(step), step)
}
