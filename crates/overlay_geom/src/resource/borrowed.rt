//! Contours and shapes borrowed from a list, as resources.

ghost use Rattle.std.specs.Prelude.{◌≡◌};
ghost use Rattle.overlay_geom.specs.PathCursors.{number_at};
ghost use Rattle.overlay_geom.specs.Paths.{paths_of_shape, paths_of_shapes, counted_paths};

use crate::number::IntNumber;
use crate::path::{IntContour, IntShape};
use crate::point::IntPoint;
use crate::resource::cursor::{PathCursor, contour_at};
use crate::resource::{IntShapeResource, count_contours};
use std::alloc::Allocator;

/// Borrowed contours; each is a path.
#[derive(Drop)]
pub struct BorrowedContours<'a, I: IntNumber, B: Allocator> {
    /// The contours, in order.
    pub contours: &'a [IntContour<I, B>],
}

impl<'a, I: IntNumber, B: Allocator> IntShapeResource<I> for BorrowedContours<'a, I, B> {
    ghost paths = { λ b. paths_of_shape I.whole b.contours.now };

    /// Returns the number of contours.
    fn path_count(&self) -> usize {
        self.contours.len()
    }

    /// Returns the points of contour `index`.
    fn path(&self, index: usize) -> &[IntPoint<I>] {
        &self.contours[index]
    }
}

/// Borrowed shapes; each contour of each shape is a path.
#[derive(Drop)]
pub struct BorrowedShapes<'a, I: IntNumber, B: Allocator> {
    /// The shapes, in order.
    pub shapes: &'a [IntShape<I, B>],
}

impl<'a, I: IntNumber, B: Allocator> IntShapeResource<I> for BorrowedShapes<'a, I, B> {
    ghost paths = { λ b. counted_paths (paths_of_shapes I.whole b.shapes.now) };

    ghost stands_at = { λ b c n. number_at I.whole b.shapes.now c ≡ n };

    /// Returns the number of contours of all shapes together, at most `usize::MAX`.
    fn path_count(&self) -> usize {
        count_contours(self.shapes)
    }

    /// Returns the points of contour `index`, counted through all shapes in order.
    fn path(&self, index: usize) -> &[IntPoint<I>] {
        contour_at(self.shapes, index, &mut None)
    }

    /// Returns the points of contour `index`, looked for from the cursor on, and moves the cursor behind it.
    fn path_at(&self, index: usize, cursor: &mut Option<PathCursor>) -> &[IntPoint<I>] {
        contour_at(self.shapes, index, cursor)
    }
}
