//! The tiles into which the lines of a grid slice contours, of arrays.

ghost use Rattle.std.specs.Prelude.{MatchResult};
ghost use Rattle.polyover_calls.specs.Given.{contours_of};
ghost use Rattle.polyover_calls.specs.Held.{arrays_of};
ghost use Rattle.polyover_calls.specs.Tiled.{AreTilesOfContours, IsTilingRefused, TilesAreHeld};
ghost use Rattle.polyover_calls.specs.Written.{IsFlat, flat_shapes};

use crate::answer::{Answer, flattened};
use crate::given::Contours;
use crate::grid::{fits_across, has_cells};
use crate::held::{HeldOutcome, hold_nothing, hold_shapes};
use crate::numbers::{fill_of, solver_of};
use crate::read::tested_contours;
use crate::status::Status;
use crate::test::test_contours;
use i_overlay::tiles::{Grid, slice_by_grid_with_solver};
use overlay_geom::integer::OverlayInt;
use std::alloc::Global;

/// The tiles into which the lines of a grid, of cells as wide and as high, slice what the subject fills.
#[tactic(auto, using(crate::proofs::Endings::put_ends, crate::proofs::Endings::refused_ends))]
pub fn tiles_held<'a, I: OverlayInt + 'a>(
    alloc: Global,
    fill: u32,
    solver: u32,
    subject: &Contours<I>,
    width: I,
    height: I,
) -> HeldOutcome<'a, I>
    ensures { TilesAreHeld I.whole I.limit I.Wide.width fill solver (I.whole width) (I.whole height)
        (contours_of subject.now.coordinates.now subject.now.ends.now)
        (arrays_of result.held) result.status }
{
    match tiles_answer(alloc, fill, solver, subject, Grid { width, height }) {
        Ok(answer) => hold_shapes(answer),
        Err(status) => hold_nothing(status),
    }
}

// The tiles, as arrays. All is tested before memory is taken: the numbers, then the contours, and then whether the grid
// fits them.
#[tactic(auto, using(crate::proofs::Tiled::solver_unknown, crate::proofs::Tiled::without_cells, crate::proofs::Tiled::contours_untiled, crate::proofs::Tiled::too_many_lines, crate::proofs::Tiled::memory_refused, crate::proofs::Tiled::tiling_refused, crate::proofs::Tiled::subject_tiled))]
fn tiles_answer<I: OverlayInt>(
    alloc: Global,
    fill: u32,
    solver: u32,
    subject: &Contours<I>,
    grid: Grid<I>,
) -> Result<Answer<I>, Status>
    ensures { MatchResult result
        (λ a. IsFlat (AreTilesOfContours I.whole I.limit I.Wide.width fill solver (I.whole grid.width)
        (I.whole grid.height) (contours_of subject.now.coordinates.now subject.now.ends.now)) I.whole
        (flat_shapes a.coordinates.items a.contour_ends.items a.shape_ends.items))
        (IsTilingRefused I.whole I.limit fill solver (I.whole grid.width) (I.whole grid.height)
        (contours_of subject.now.coordinates.now subject.now.ends.now)) }
{
    let fill = fill_of(fill)?;
    let solver = solver_of(solver)?;
    if !has_cells(grid) {
        return Err(Status::BadOption);
    }
    test_contours(subject.coordinates, subject.ends)?;
    if !fits_across(subject.coordinates, grid) {
        return Err(Status::BadOption);
    }
    let contours = tested_contours(alloc, subject.coordinates, subject.ends)?;
    let tiles = slice_by_grid_with_solver(alloc, &contours, grid, fill, solver)?;
    let answer = flattened(alloc, &tiles)?;
    Ok(answer)
}
