//! The lines of a grid across the box of the points of a resource.

ghost use Rattle.std.specs.Prelude.{◌≡◌, All, IfOk};
ghost use Rattle.overlay_geom.specs.Points.{AllInRange, plain_points};
ghost use Rattle.overlay_string.specs.StringPaths.{paths_of_lines};
ghost use Rattle.overlay_tiles.specs.Grids.{AreGridLines, AreLinesAcross, IsGridStep, level, upright};
ghost use Rattle.overlay_tiles.specs.Spans.{AreBoundsInRange, plain_bounds, points_of_paths};

use crate::grid::Grid;
use crate::multiples::grid_multiples;
use crate::span::{IntBounds, bounds_of};
use overlay_geom::number::IntNumber;
use overlay_geom::path::IntLine;
use overlay_geom::point::IntPoint;
use overlay_geom::resource::IntShapeResource;
use std::alloc::{AllocError, Allocator};

/// The lines of the grid across the box of all points. Upright ones come first, from left to right, each from the
/// bottom of the box to its top. Then come the level ones from the lowest up, each from the left of the box to its
/// right. Without points there is none. The points are in the coordinate range, and so are the lines.
pub fn grid_lines<I: IntNumber, R0: IntShapeResource<I>, A: Allocator + Clone>(
    alloc: A,
    resource: &R0,
    grid: Grid<I>,
) -> Result<Vec<IntLine<I>, A>, AllocError>
    requires in_range { All (AllInRange I.limit) (R0.paths resource.now) }
    requires width { IsGridStep I.limit (I.whole grid.width) }
    requires height { IsGridStep I.limit (I.whole grid.height) }
    ensures lines { IfOk result (λ v. AreGridLines (I.whole grid.width) (I.whole grid.height)
        (points_of_paths (R0.paths resource.now)) (paths_of_lines I.whole v.items)) }
    ensures in_range { IfOk result (λ v. All (AllInRange I.limit) (paths_of_lines I.whole v.items)) }
{
    match bounds_of(resource) {
        Some(bounds) => lines_across(alloc, bounds, grid),
        None => Ok(Vec::new(alloc)),
    }
}

// The lines of the grid across the box.
fn lines_across<I: IntNumber, A: Allocator + Clone>(
    alloc: A,
    bounds: IntBounds<I>,
    grid: Grid<I>,
) -> Result<Vec<IntLine<I>, A>, AllocError>
    requires bounds { AreBoundsInRange I.limit (plain_bounds I.whole bounds) }
    requires width { IsGridStep I.limit (I.whole grid.width) }
    requires height { IsGridStep I.limit (I.whole grid.height) }
    ensures lines { IfOk result (λ v. AreLinesAcross (I.whole grid.width) (I.whole grid.height)
        (plain_bounds I.whole bounds) (paths_of_lines I.whole v.items)) }
    ensures in_range { IfOk result (λ v. All (AllInRange I.limit) (paths_of_lines I.whole v.items)) }
{
    let xs = grid_multiples(alloc.clone()?, grid.width, bounds.x)?;
    let ys = grid_multiples(alloc.clone()?, grid.height, bounds.y)?;
    let mut lines: Vec<IntLine<I>, A> = Vec::new(alloc);
    for x in &xs {
        lines.push(upright_at(*x, bounds))?;
    }
    for y in &ys {
        lines.push(level_at(*y, bounds))?;
    }
    Ok(lines)
}

// The line at this x, from the bottom of the box to its top.
fn upright_at<I: IntNumber>(x: I, bounds: IntBounds<I>) -> IntLine<I>
    ensures { plain_points I.whole result ≡ upright (plain_bounds I.whole bounds) (I.whole x) }
{
    [
        IntPoint {
            x,
            y: bounds.y.least,
        },
        IntPoint {
            x,
            y: bounds.y.greatest,
        },
    ]
}

// The line at this y, from the left of the box to its right.
fn level_at<I: IntNumber>(y: I, bounds: IntBounds<I>) -> IntLine<I>
    ensures { plain_points I.whole result ≡ level (plain_bounds I.whole bounds) (I.whole y) }
{
    [
        IntPoint {
            x: bounds.x.least,
            y,
        },
        IntPoint {
            x: bounds.x.greatest,
            y,
        },
    ]
}
