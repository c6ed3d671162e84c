//! The contours of an input's subject, borrowed from the input.

ghost use Rattle.std.specs.Prelude.{◌≡◌, IfOk};
ghost use Rattle.polyover_text.specs.Statements.{contours_at};
ghost use Rattle.polyover_engine.specs.Subjects.{subject_of};
ghost use Rattle.polyover_engine.specs.Borrowed.{points_of_each};

use i_overlay::overlay::ShapeType;
use overlay_geom::path::PathRef;
use overlay_geom::point::IntPoint;
use overlay_geom::resource::IntShapeResource;
use polyover_text::figures::NumberedContour;
use std::alloc::{AllocError, Allocator};

/// The contours of an input's subject, resolved or not: each is a path. Their points stay where they are.
#[derive(Drop)]
pub(crate) struct BorrowedSubject<'a, A: Allocator> {
    /// The contours, in order.
    pub(crate) contours: Vec<PathRef<'a, i64>, A>,
}

impl<'a, A: Allocator> BorrowedSubject<'a, A> {
    /// The contours of the subject among these.
    pub(crate) fn new(alloc: A, contours: &'a [NumberedContour<A>]) -> Result<Self, AllocError>
        ensures ok { IfOk result (λ s. points_of_each s.contours.items ≡ subject_of (contours_at contours.now)) }
    {
        let mut paths = Vec::new(alloc);
        for given in contours {
            let contour = &given.contour;
            match contour.shape_type {
                ShapeType::Subject => paths.push(PathRef::new(&contour.points))?,
                ShapeType::Clip => {}
            }
        }
        Ok(BorrowedSubject { contours: paths })
    }
}

impl<'a, A: Allocator> IntShapeResource<i64> for BorrowedSubject<'a, A> {
    ghost paths = { λ s. points_of_each s.contours.items };

    /// Returns how many contours the subject has.
    fn path_count(&self) -> usize {
        self.contours.len()
    }

    /// Returns the points of the contour with this number.
    fn path(&self, index: usize) -> &[IntPoint<i64>] {
        self.contours[index].points
    }
}
