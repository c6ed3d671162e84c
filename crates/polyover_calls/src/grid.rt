//! Whether a grid of tiles fits contours in arrays. No call here takes memory.

ghost use Rattle.std.specs.Prelude.{◌≡◌, ◌++◌, ◌∷◌, [], ◌↔◌, IfSome, IsTrue, List, Some};
ghost use Rattle.overlay_geom.specs.Plane.{Point};
ghost use Rattle.overlay_geom.specs.Points.{plain_points};
ghost use Rattle.overlay_tiles.specs.Grids.{FitsGrid, HasFewLines, IsGridStep};
ghost use Rattle.overlay_tiles.specs.Spans.{AreBoundsInRange, IsBoxFound, includes, plain_bounds, plain_span};
ghost use Rattle.polyover_calls.specs.Arrays.{points_of};
ghost use Rattle.polyover_calls.specs.Reading.{AreWithin};

use i_overlay::tiles::Grid;
use overlay_geom::number::IntNumber;
use overlay_tiles::multiples::are_few;
use overlay_tiles::span::{IntBounds, IntSpan};

/// Returns whether cells can be as wide and as high: at least 1, and in the coordinate range.
pub(crate) fn has_cells<I: IntNumber>(grid: Grid<I>) -> bool
    ensures { IsTrue result ↔ (IsGridStep I.limit (I.whole grid.width) × IsGridStep I.limit (I.whole grid.height)) }
{
    is_step(grid.width) && is_step(grid.height)
}

/// Returns whether the grid, which has cells, fits points in the coordinate range: it has at most 1,000 lines in each
/// direction.
pub(crate) fn fits_across<I: IntNumber>(coordinates: &[I], grid: Grid<I>) -> bool
    requires within { AreWithin I.whole I.limit coordinates.now }
    requires width { IsGridStep I.limit (I.whole grid.width) }
    requires height { IsGridStep I.limit (I.whole grid.height) }
    ensures { IsTrue result ↔ FitsGrid I.limit (I.whole grid.width) (I.whole grid.height)
        (plain_points I.whole (points_of coordinates.now)) }
{
    has_few_lines(grid, box_of(coordinates))
}

// Whether a cell can be as wide, or as high.
fn is_step<I: IntNumber>(step: I) -> bool
    ensures { IsTrue result ↔ IsGridStep I.limit (I.whole step) }
{
    step.is_in_range() && step.minus(step).compare(step).is_lt()
}

// Whether few lines of the grid pass across the box, if there is one.
fn has_few_lines<I: IntNumber>(grid: Grid<I>, bounds: Option<IntBounds<I>>) -> bool
    requires width { IsGridStep I.limit (I.whole grid.width) }
    requires height { IsGridStep I.limit (I.whole grid.height) }
    requires bounds { IfSome bounds (λ b. AreBoundsInRange I.limit (plain_bounds I.whole b)) }
    ensures { IsTrue result ↔ HasFewLines (I.whole grid.width) (I.whole grid.height) I.whole bounds }
{
    match bounds {
        Some(b) => are_few(grid.width, b.x) && are_few(grid.height, b.y),
        None => true,
    }
}

// The box of the points of the coordinates, if there are any.
fn box_of<I: IntNumber>(coordinates: &[I]) -> Option<IntBounds<I>>
    ensures { IsBoxFound I.whole (plain_points I.whole (points_of coordinates.now)) result }
{
    let mut bounds = None;
    let mut before = None;
    for coordinate in coordinates {
        match before {
            None => before = Some(*coordinate),
            Some(x) => {
                bounds = Some(with_point(bounds, x, *coordinate));
                before = None;
            }
        }
    }
    bounds
}

// The box of the points of the box, if there is one, and of one more point.
fn with_point<I: IntNumber>(bounds: Option<IntBounds<I>>, x: I, y: I) -> IntBounds<I>
    ensures { (seen : List Point) → IsBoxFound I.whole seen bounds →
        IsBoxFound I.whole (seen ++ record { x = I.whole x; y = I.whole y } ∷ []) (Some result) }
{
    match bounds {
        Some(b) => IntBounds {
            x: with_number(b.x, x),
            y: with_number(b.y, y),
        },
        None => IntBounds {
            x: IntSpan {
                least: x,
                greatest: x,
            },
            y: IntSpan {
                least: y,
                greatest: y,
            },
        },
    }
}

// The span with this coordinate too.
fn with_number<I: IntNumber>(span: IntSpan<I>, at: I) -> IntSpan<I>
    ensures { plain_span I.whole result ≡ includes (plain_span I.whole span) (I.whole at) }
{
    if at.compare(span.least).is_lt() {
        IntSpan {
            least: at,
            greatest: span.greatest,
        }
    } else if span.greatest.compare(at).is_lt() {
        IntSpan {
            least: span.least,
            greatest: at,
        }
    } else {
        span
    }
}
