//! Sources of paths: a contour, a shape, several shapes, or a path that borrows its points.

ghost use Rattle.std.specs.Prelude.{◌≡◌, ◌<◌, ◌+◌, ◌∷◌, [], ℕ, List, length, IfSome, Some};
ghost use Rattle.std.specs.List.{slice_get};
ghost use Rattle.overlay_geom.specs.Paths.{paths_of_shape, paths_of_shapes, counted_paths};
ghost use Rattle.overlay_geom.specs.PathCursors.{number_at};
ghost use Rattle.overlay_geom.specs.Plane.{Point};
ghost use Rattle.overlay_geom.specs.Points.{plain_points};
ghost use Rattle.overlay_geom.specs.declared.resource.cursor.PathCursor.{PathCursor};

pub mod borrowed;
pub mod cursor;

use crate::number::IntNumber;
use crate::path::{IntContour, IntShape, IntShapes, PathRef};
use crate::point::IntPoint;
use crate::resource::cursor::{PathCursor, contour_at};
use std::alloc::Allocator;

/// A source of paths, numbered from 0.
pub trait IntShapeResource<I: IntNumber> {
    // The whole points of each path.
    ghost paths: { Self → List (List Point) };
    // The path at a cursor has this number.
    ghost stands_at: { Self → PathCursor → ℕ → Type 0 } = { λ _ _ _. Unit {0} };

    /// Returns the number of paths.
    fn path_count(&self) -> usize
        ensures { result ≡ length (paths self.now) };

    /// Returns the points of path `index`, which is below `path_count`.
    fn path(&self, index: usize) -> &[IntPoint<I>]
        requires { index < length (paths self.now) }
        ensures { slice_get (paths self.now) index ≡ Some (plain_points I.whole result.now) };

    /// Returns the points of path `index`. A cursor that is not `None` stands at this path. Leaves it at the next path,
    /// which is then found without a search, or as `None` where paths are found without it.
    fn path_at(&self, index: usize, cursor: &mut Option<PathCursor>) -> &[IntPoint<I>]
        requires within { index < length (paths self.now) }
        requires here { IfSome cursor.old (λ c. stands_at self.now c index) }
        ensures path { slice_get (paths self.now) index ≡ Some (plain_points I.whole result.now) }
        ensures next { IfSome cursor.new (λ c. stands_at self.now c (index + 1)) }
    {
        *cursor = None;
        self.path(index)
    }
}

impl<I: IntNumber, A: Allocator> IntShapeResource<I> for IntContour<I, A> {
    ghost paths = { λ c. plain_points I.whole c.items ∷ [] };

    /// Returns 1: a contour is one path.
    fn path_count(&self) -> usize {
        1
    }

    /// Returns the points of the contour, its path 0.
    fn path(&self, index: usize) -> &[IntPoint<I>] {
        let _ = index;
        self.as_slice()
    }
}

impl<I: IntNumber, A: Allocator> IntShapeResource<I> for IntShape<I, A> {
    ghost paths = { λ s. paths_of_shape I.whole s.items };

    /// Returns the number of contours of the shape.
    fn path_count(&self) -> usize {
        self.len()
    }

    /// Returns the points of contour `index`.
    fn path(&self, index: usize) -> &[IntPoint<I>] {
        &self[index]
    }
}

impl<I: IntNumber, A: Allocator> IntShapeResource<I> for IntShapes<I, A> {
    ghost paths = { λ ss. counted_paths (paths_of_shapes I.whole ss.items) };

    ghost stands_at = { λ ss c n. number_at I.whole ss.items c ≡ n };

    /// Returns the number of contours of all shapes together, at most `usize::MAX`.
    fn path_count(&self) -> usize {
        count_contours(self)
    }

    /// Returns the points of contour `index`, counted through all shapes in order.
    fn path(&self, index: usize) -> &[IntPoint<I>] {
        contour_at(self, index, &mut None)
    }

    /// Returns the points of contour `index`, looked for from the cursor on, and moves the cursor behind it.
    fn path_at(&self, index: usize, cursor: &mut Option<PathCursor>) -> &[IntPoint<I>] {
        contour_at(self, index, cursor)
    }
}

impl<'a, I: IntNumber> IntShapeResource<I> for PathRef<'a, I> {
    ghost paths = { λ p. plain_points I.whole p.points.now ∷ [] };

    /// Returns 1: a borrowed path is one path.
    fn path_count(&self) -> usize {
        1
    }

    /// Returns the borrowed points, as path 0.
    fn path(&self, index: usize) -> &[IntPoint<I>] {
        let _ = index;
        self.points
    }
}

/// Returns the number of contours of all shapes together, at most `usize::MAX`.
fn count_contours<I: IntNumber, A: Allocator>(shapes: &[IntShape<I, A>]) -> usize
    ensures { result ≡ length (counted_paths (paths_of_shapes I.whole shapes.now)) }
{
    let mut count: usize = 0;
    for shape in shapes {
        count = count.saturating_add(shape.len());
    }
    count
}
