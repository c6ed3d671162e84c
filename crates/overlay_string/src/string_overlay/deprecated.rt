//! Calls that the original keeps under old names: each is one call of a constructor or of an adder, over what borrows
//! the lists that it is given. Of shapes it reads as many contours as `usize` can count.

ghost use Rattle.std.specs.Prelude.{◌∷◌, [], All, IfOk, IfErr};
ghost use Rattle.overlay_geom.specs.Paths.{paths_of_shape, paths_of_shapes, counted_paths};
ghost use Rattle.overlay_geom.specs.Points.{plain_points, AllInRange};
ghost use Rattle.overlay_string.specs.StringBuilder.{StringBuilderAdds, IsNewBuilder};
ghost use Rattle.overlay_string.specs.StringPaths.{shape_contours, open_strings, closed_strings};
ghost use Rattle.overlay_builder.specs.PathLists.{HoldsPaths, MayRefuseBuilder};

use crate::string_overlay::StringOverlay;
use overlay_geom::error::OverlayError;
use overlay_geom::integer::OverlayInt;
use overlay_geom::path::{IntContour, IntPath, IntShape, PathRef};
use overlay_geom::point::IntPoint;
use overlay_geom::resource::borrowed::{BorrowedContours, BorrowedShapes};
use std::alloc::Allocator;

impl<I: OverlayInt, A: Allocator + Clone> StringOverlay<I, A> {
    /// A builder with one contour of the shape, as `from_shape` makes it. The points are in the coordinate range, and
    /// refusals are those of that call.
    ///
    /// Deprecated: `from_shape` takes its place.
    pub fn with_shape_contour(alloc: A, contour: &[IntPoint<I>]) -> Result<Self, OverlayError>
        requires { AllInRange I.limit (plain_points I.whole contour.now) }
        ensures ok { IfOk result (λ o. HoldsPaths
            (shape_contours (plain_points I.whole contour.now ∷ [])) o.edges) }
        ensures made { IfOk result (λ o. IsNewBuilder I.WideUInt.natural o) }
        ensures err { IfErr result (MayRefuseBuilder (shape_contours (plain_points I.whole contour.now ∷ []))) }
    {
        StringOverlay::from_shape(alloc, &PathRef::new(contour))
    }

    /// A builder with the contours of the shape, as `from_shape` makes it. The points are in the coordinate range, and
    /// refusals are those of that call.
    ///
    /// Deprecated: `from_shape` takes its place.
    pub fn with_shape_contours<B: Allocator>(
        alloc: A,
        contours: &[IntContour<I, B>],
    ) -> Result<Self, OverlayError>
        requires { All (AllInRange I.limit) (paths_of_shape I.whole contours.now) }
        ensures ok { IfOk result (λ o. HoldsPaths (shape_contours (paths_of_shape I.whole contours.now)) o.edges) }
        ensures made { IfOk result (λ o. IsNewBuilder I.WideUInt.natural o) }
        ensures err { IfErr result (MayRefuseBuilder (shape_contours (paths_of_shape I.whole contours.now))) }
    {
        StringOverlay::from_shape(alloc, &BorrowedContours { contours })
    }

    /// A builder with the contours of a shape, as `from_shape` makes it. The points are in the coordinate range, and
    /// refusals are those of that call.
    ///
    /// Deprecated: `from_shape` takes its place.
    pub fn with_shape<B: Allocator>(
        alloc: A,
        shape: &[IntContour<I, B>],
    ) -> Result<Self, OverlayError>
        requires { All (AllInRange I.limit) (paths_of_shape I.whole shape.now) }
        ensures ok { IfOk result (λ o. HoldsPaths (shape_contours (paths_of_shape I.whole shape.now)) o.edges) }
        ensures made { IfOk result (λ o. IsNewBuilder I.WideUInt.natural o) }
        ensures err { IfErr result (MayRefuseBuilder (shape_contours (paths_of_shape I.whole shape.now))) }
    {
        StringOverlay::with_shape_contours(alloc, shape)
    }

    /// A builder with the contours of all shapes, as `from_shape` makes it. The points are in the coordinate range,
    /// and refusals are those of that call.
    ///
    /// Deprecated: `from_shape` takes its place.
    pub fn with_shapes<B: Allocator>(
        alloc: A,
        shapes: &[IntShape<I, B>],
    ) -> Result<Self, OverlayError>
        requires { All (AllInRange I.limit) (counted_paths (paths_of_shapes I.whole shapes.now)) }
        ensures ok { IfOk result (λ o. HoldsPaths
            (shape_contours (counted_paths (paths_of_shapes I.whole shapes.now))) o.edges) }
        ensures made { IfOk result (λ o. IsNewBuilder I.WideUInt.natural o) }
        ensures err { IfErr result (MayRefuseBuilder
            (shape_contours (counted_paths (paths_of_shapes I.whole shapes.now)))) }
    {
        StringOverlay::from_shape(alloc, &BorrowedShapes { shapes })
    }

    /// Adds the contours of the shape in order, as `add_shape_source` does the paths of a resource.
    ///
    /// Deprecated: `add_shape_source` takes its place.
    pub fn add_shape_contours<B: Allocator>(
        &mut self,
        contours: &[IntContour<I, B>],
    ) -> Result<(), OverlayError>
        requires { All (AllInRange I.limit) (paths_of_shape I.whole contours.now) }
        ensures { StringBuilderAdds (shape_contours (paths_of_shape I.whole contours.now)) self.old self.new result }
    {
        self.add_shape_source(&BorrowedContours { contours })
    }

    /// Adds the contours of all shapes, shape by shape, as `add_shape_source` does the paths of a resource.
    ///
    /// Deprecated: `add_shape_source` takes its place.
    pub fn add_shapes<B: Allocator>(
        &mut self,
        shapes: &[IntShape<I, B>],
    ) -> Result<(), OverlayError>
        requires { All (AllInRange I.limit) (counted_paths (paths_of_shapes I.whole shapes.now)) }
        ensures { StringBuilderAdds (shape_contours (counted_paths (paths_of_shapes I.whole shapes.now)))
            self.old self.new result }
    {
        self.add_shape_source(&BorrowedShapes { shapes })
    }

    /// Adds the paths in order as open strings, as `add_string_source` does the paths of a resource.
    ///
    /// Deprecated: `add_string_source` takes its place.
    pub fn add_string_paths<B: Allocator>(
        &mut self,
        paths: &[IntPath<I, B>],
    ) -> Result<(), OverlayError>
        requires { All (AllInRange I.limit) (paths_of_shape I.whole paths.now) }
        ensures { StringBuilderAdds (open_strings (paths_of_shape I.whole paths.now)) self.old self.new result }
    {
        self.add_string_source(&BorrowedContours { contours: paths })
    }

    /// Adds the contours in order as closed strings, as `add_string_contour_source` does the paths of a resource.
    ///
    /// Deprecated: `add_string_contour_source` takes its place.
    pub fn add_string_contours<B: Allocator>(
        &mut self,
        contours: &[IntContour<I, B>],
    ) -> Result<(), OverlayError>
        requires { All (AllInRange I.limit) (paths_of_shape I.whole contours.now) }
        ensures { StringBuilderAdds (closed_strings (paths_of_shape I.whole contours.now)) self.old self.new result }
    {
        self.add_string_contour_source(&BorrowedContours { contours })
    }
}
