//! Paths, contours and shapes as lists of points, and a path that borrows its points.

ghost use Rattle.std.specs.Prelude.{◌≡◌};

use crate::point::IntPoint;

/// The points of a path, in order from first to last.
pub type IntPath<I, A> = Vec<IntPoint<I>, A>;

/// The points of a closed contour, in order. The first point follows the last again and is not repeated.
pub type IntContour<I, A> = Vec<IntPoint<I>, A>;

/// A shape: its outline, followed by its holes.
pub type IntShape<I, A> = Vec<IntContour<I, A>, A>;

/// Several shapes.
pub type IntShapes<I, A> = Vec<IntShape<I, A>, A>;

/// A line, from its first end to its second end. Where a call says so, the smaller end stands first; points are ordered
/// by x, then by y.
pub type IntLine<I> = [IntPoint<I>; 2];

/// A path that borrows its points.
#[derive(Clone, Copy)]
pub struct PathRef<'a, I> {
    /// The points, in order.
    pub points: &'a [IntPoint<I>],
}

impl<'a, I> PathRef<'a, I> {
    /// Makes the path through `points`, in their order.
    pub fn new(points: &'a [IntPoint<I>]) -> Self
        ensures { result.points.now ≡ points.now }
    {
        PathRef { points }
    }
}
