//! Lists of contours, and shapes, that are added to a builder for predicates.

ghost use Rattle.std.specs.Prelude.{All};
ghost use Rattle.overlay_geom.specs.Paths.{paths_of_shape, paths_of_shapes, plain_shapes};
ghost use Rattle.overlay_geom.specs.Points.{AllInRange};
ghost use Rattle.overlay_builder.specs.GivenPaths.{paths_for};
ghost use Rattle.overlay_relate.specs.PredicateBuilder.{PredicateBuilderAdds};

use crate::predicate_overlay::{PredicateOverlay, ShapeType};
use overlay_geom::error::OverlayError;
use overlay_geom::integer::OverlayInt;
use overlay_geom::path::{IntContour, IntShape};
use overlay_geom::resource::borrowed::BorrowedContours;
use std::alloc::Allocator;

impl<I: OverlayInt, A: Allocator + Clone> PredicateOverlay<I, A> {
    /// Adds the contours in order, as `add_source` does the paths of a resource.
    ///
    /// Deprecated: `add_source` takes its place.
    pub fn add_contours<B: Allocator>(
        &mut self,
        contours: &[IntContour<I, B>],
        shape_type: ShapeType,
    ) -> Result<(), OverlayError>
        requires { All (AllInRange I.limit) (paths_of_shape I.whole contours.now) }
        ensures { PredicateBuilderAdds (paths_for shape_type (paths_of_shape I.whole contours.now))
            self.old self.new result }
    {
        self.add_source(&BorrowedContours { contours }, shape_type)
    }

    /// Adds the contours of a shape in order, as `add_source` does the paths of a resource.
    ///
    /// Deprecated: `add_source` takes its place.
    pub fn add_shape<B: Allocator>(
        &mut self,
        shape: &IntShape<I, B>,
        shape_type: ShapeType,
    ) -> Result<(), OverlayError>
        requires { All (AllInRange I.limit) (paths_of_shape I.whole shape.now.items) }
        ensures { PredicateBuilderAdds (paths_for shape_type (paths_of_shape I.whole shape.now.items))
            self.old self.new result }
    {
        self.add_source(shape, shape_type)
    }

    /// Adds the contours of all shapes, shape by shape, as `add_source` does the paths of a resource.
    ///
    /// Deprecated: `add_source` takes its place.
    pub fn add_shapes<B: Allocator>(
        &mut self,
        shapes: &[IntShape<I, B>],
        shape_type: ShapeType,
    ) -> Result<(), OverlayError>
        requires { All (All (AllInRange I.limit)) (plain_shapes I.whole shapes.now) }
        ensures { PredicateBuilderAdds (paths_for shape_type (paths_of_shapes I.whole shapes.now))
            self.old self.new result }
    {
        self.core.check_usable()?;
        for shape in shapes {
            self.add_shape(shape, shape_type)?;
        }
        Ok(())
    }
}
