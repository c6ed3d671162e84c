//! A cursor in the contours of shapes, by which they are read in turn.

ghost use Rattle.std.specs.Prelude.{◌≡◌, ◌<◌, ◌+◌, length, IfSome, Some};
ghost use Rattle.std.specs.List.{slice_get};
ghost use Rattle.overlay_geom.specs.PathCursors.{number_at};
ghost use Rattle.overlay_geom.specs.Paths.{paths_of_shapes};
ghost use Rattle.overlay_geom.specs.Points.{plain_points};

use crate::number::IntNumber;
use crate::path::IntShape;
use crate::point::IntPoint;
use std::alloc::Allocator;

/// A place in the contours of shapes: a contour, counted from the beginning of a shape on, also past its end.
#[derive(Debug, Clone, Copy, PartialEq, Eq)]
pub struct PathCursor {
    /// Number of the shape.
    pub shape: usize,
    /// Number of the contour.
    pub contour: usize,
}

/// Returns the points of contour `index`, counted through all shapes in order. A cursor that is not `None` stands at
/// it. Leaves the cursor at the next contour.
pub(crate) fn contour_at<'a, I: IntNumber, A: Allocator>(
    shapes: &'a [IntShape<I, A>],
    index: usize,
    cursor: &mut Option<PathCursor>,
) -> &'a [IntPoint<I>]
    requires within { index < length (paths_of_shapes I.whole shapes.now) }
    requires here { IfSome cursor.old (λ c. number_at I.whole shapes.now c ≡ index) }
    ensures contour { slice_get (paths_of_shapes I.whole shapes.now) index ≡ Some (plain_points I.whole result.now) }
    ensures next { IfSome cursor.new (λ c. number_at I.whole shapes.now c ≡ index + 1) }
{
    let from = cursor.unwrap_or(PathCursor {
        shape: 0,
        contour: index,
    });
    let mut left = from.contour;
    for place in from.shape..shapes.len() {
        let shape = &shapes[place];
        if left < shape.len() {
            *cursor = Some(PathCursor {
                shape: place,
                contour: left + 1,
            });
            return &shape[left];
        }
        left -= shape.len();
    }
    unreachable!()
}
