//! Points in a borrowed path, in borrowed contours and in borrowed shapes.

ghost use Rattle.std.specs.Prelude.{[], ◌∷◌};
ghost use Rattle.overlay_geom.specs.Points.{plain_points};
ghost use Rattle.overlay_geom.specs.Paths.{paths_of_shape, plain_shapes};

use crate::containment::IntPointContainment;
use crate::in_contour::locate_in_contour;
use crate::in_shapes::{locate_in_shape, locate_in_shapes};
use crate::location::PointLocation;
use overlay_geom::error::OverlayError;
use overlay_geom::integer::OverlayInt;
use overlay_geom::path::PathRef;
use overlay_geom::point::IntPoint;
use overlay_geom::resource::borrowed::{BorrowedContours, BorrowedShapes};
use std::alloc::Allocator;

impl<'a, I: OverlayInt> IntPointContainment<I> for PathRef<'a, I> {
    ghost shapes = { λ p. (plain_points I.whole p.points.now ∷ []) ∷ [] };

    /// Returns where each point lies in the contour through the path's points.
    fn locate_points<A: Allocator + Clone>(
        &self,
        alloc: A,
        points: &[IntPoint<I>],
    ) -> Result<Vec<PointLocation, A>, OverlayError> {
        let locations = locate_in_contour(alloc, self.points, points)?;
        Ok(locations)
    }
}

impl<'a, I: OverlayInt, B: Allocator> IntPointContainment<I> for BorrowedContours<'a, I, B> {
    ghost shapes = { λ b. paths_of_shape I.whole b.contours.now ∷ [] };

    /// Returns where each point lies in the shape that the contours are: its outline and its holes.
    fn locate_points<A: Allocator + Clone>(
        &self,
        alloc: A,
        points: &[IntPoint<I>],
    ) -> Result<Vec<PointLocation, A>, OverlayError> {
        let locations = locate_in_shape(alloc, self.contours, points)?;
        Ok(locations)
    }
}

impl<'a, I: OverlayInt, B: Allocator> IntPointContainment<I> for BorrowedShapes<'a, I, B> {
    ghost shapes = { λ b. plain_shapes I.whole b.shapes.now };

    /// Returns where each point lies in the shapes.
    fn locate_points<A: Allocator + Clone>(
        &self,
        alloc: A,
        points: &[IntPoint<I>],
    ) -> Result<Vec<PointLocation, A>, OverlayError> {
        let locations = locate_in_shapes(alloc, self.shapes, points)?;
        Ok(locations)
    }
}
