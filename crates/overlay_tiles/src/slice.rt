//! A shape sliced along the lines of a grid in one call.

ghost use Rattle.std.specs.Prelude.{All, IfErr, IfOk};
ghost use Rattle.overlay_geom.specs.Paths.{plain_shapes};
ghost use Rattle.overlay_geom.specs.Points.{AllInRange};
ghost use Rattle.overlay_geom.specs.declared.solver.Solver.TheVariants.{Rounds};
ghost use Rattle.overlay_tiles.specs.Grids.{FitsGrid};
ghost use Rattle.overlay_tiles.specs.Spans.{points_of_paths};
ghost use Rattle.overlay_tiles.specs.Tiles.{AreTiles, MayRefuseTiles};

use crate::grid::Grid;
use crate::lines::grid_lines;
use overlay_geom::error::OverlayError;
use overlay_geom::fill_rule::FillRule;
use overlay_geom::integer::OverlayInt;
use overlay_geom::path::IntShapes;
use overlay_geom::resource::IntShapeResource;
use overlay_geom::solver::Solver;
use overlay_string::lines::BorrowedLines;
use overlay_string::slice::IntSlice;
use std::alloc::Allocator;

/// Slices the resource along the lines of the grid across the bounding box of all its points, as `slice_by_lines` does.
/// Its paths are the closed contours of a shape. Points of the contours on one line are dropped. The points are in the
/// coordinate range, and the grid fits, as `grid_fits` tells.
///
/// Edges are split by `Solver::ABSOLUTE`. Refusals are `Memory`, `NotSettled` and `TooManyEdges`; nothing of the
/// caller's is changed.
pub fn slice_by_grid<I: OverlayInt, R0: IntShapeResource<I>, A: Allocator + Clone>(
    alloc: A,
    resource: &R0,
    grid: Grid<I>,
    fill_rule: FillRule,
) -> Result<IntShapes<I, A>, OverlayError>
    requires in_range { All (AllInRange I.limit) (R0.paths resource.now) }
    requires fits { FitsGrid I.limit (I.whole grid.width) (I.whole grid.height)
        (points_of_paths (R0.paths resource.now)) }
    ensures sliced { IfOk result (λ v. AreTiles Rounds I.Wide.width fill_rule (I.whole grid.width)
        (I.whole grid.height) (R0.paths resource.now) (plain_shapes I.whole v.items)) }
    ensures err { IfErr result (MayRefuseTiles Rounds (I.whole grid.width) (I.whole grid.height)
        (R0.paths resource.now)) }
{
    slice_by_grid_with_solver(alloc, resource, grid, fill_rule, Solver::ABSOLUTE)
}

/// As `slice_by_grid`, with edges split by `solver`: `NotSettled` never comes with `Solver::SNAPPED`.
pub fn slice_by_grid_with_solver<I: OverlayInt, R0: IntShapeResource<I>, A: Allocator + Clone>(
    alloc: A,
    resource: &R0,
    grid: Grid<I>,
    fill_rule: FillRule,
    solver: Solver,
) -> Result<IntShapes<I, A>, OverlayError>
    requires in_range { All (AllInRange I.limit) (R0.paths resource.now) }
    requires fits { FitsGrid I.limit (I.whole grid.width) (I.whole grid.height)
        (points_of_paths (R0.paths resource.now)) }
    ensures sliced { IfOk result (λ v. AreTiles solver I.Wide.width fill_rule (I.whole grid.width)
        (I.whole grid.height) (R0.paths resource.now) (plain_shapes I.whole v.items)) }
    ensures err { IfErr result (MayRefuseTiles solver (I.whole grid.width) (I.whole grid.height)
        (R0.paths resource.now)) }
{
    let lines = grid_lines(alloc.clone()?, resource, grid)?;
    resource.slice_by_source_with_solver(alloc, &BorrowedLines { lines: &lines }, fill_rule, solver)
}
