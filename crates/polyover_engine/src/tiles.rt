//! The subject of an input, cut by a grid.

ghost use Rattle.std.specs.Prelude.{◌≡◌, MatchResult, string_bytes};
ghost use Rattle.polyover_engine.specs.Answers.{Answers, EndsUnanswered};
ghost use Rattle.polyover_text.specs.Points.{FiguresInRange};
ghost use Rattle.polyover_text.specs.Statements.{figures_at};

use crate::borrowed_subject::BorrowedSubject;
use crate::exit::Exit;
use i_overlay::tiles::{Grid, grid_fits, slice_by_grid};
use polyover_text::input::Input;
use polyover_text::query::{Query, TilesQuery};
use polyover_text::shape_text::shapes_text;
use std::alloc::Allocator;

/// The answer to a query for tiles: the text of the shapes into which the grid cuts the subject, whose contours are
/// taken as those of one shape. Where the grid does not fit, it ends with `BadInput` at the line of the command.
pub(crate) fn tiles_text<A: Allocator + Copy>(
    alloc: A,
    input: &Input<A>,
    query: TilesQuery,
) -> Result<String<A>, Exit>
    requires { FiguresInRange (figures_at input.now.figures) }
    ensures { MatchResult result
        (λ text. Answers (figures_at input.now.figures) (Query.Tiles query) (string_bytes text))
        (λ exit. EndsUnanswered (figures_at input.now.figures) input.now.line (Query.Tiles query) exit) }
{
    let subject = BorrowedSubject::new(alloc, &input.figures.contours)?;
    let grid = grid_of(query);
    if !grid_fits(&subject, grid) {
        return Err(Exit::BadInput(input.line));
    }
    let tiles = slice_by_grid(alloc, &subject, grid, query.fill_rule)?;
    Ok(shapes_text(alloc, &tiles)?)
}

// The grid of cells with these sides.
fn grid_of(query: TilesQuery) -> Grid<i64>
    ensures { result ≡ record { width = query.width; height = query.height } }
{
    Grid {
        width: query.width,
        height: query.height,
    }
}
