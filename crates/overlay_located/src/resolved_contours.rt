//! Points in a shape of resolved contours, as `overlay_relate::containment` tells of them, many together.

ghost use Rattle.std.specs.Prelude.{[], ◌∷◌};
ghost use Rattle.overlay_geom.specs.Paths.{paths_of_shape};

use crate::contours::locate_in_contours;
use overlay_geom::error::OverlayError;
use overlay_geom::integer::OverlayInt;
use overlay_geom::number::IntNumber;
use overlay_geom::path::IntContour;
use overlay_geom::point::IntPoint;
use overlay_relate::containment::IntPointContainment;
use overlay_relate::location::PointLocation;
use std::alloc::Allocator;

/// A shape of resolved contours. Many points in many contours are asked together.
#[derive(Drop)]
pub struct ResolvedContours<'a, I: IntNumber, B: Allocator> {
    /// The contours, in order.
    pub contours: &'a [IntContour<I, B>],
}

impl<'a, I: OverlayInt, B: Allocator> IntPointContainment<I> for ResolvedContours<'a, I, B> {
    ghost shapes = { λ s. paths_of_shape I.whole s.contours.now ∷ [] };

    /// Returns where each point lies in the shape.
    fn locate_points<A: Allocator + Clone>(
        &self,
        alloc: A,
        points: &[IntPoint<I>],
    ) -> Result<Vec<PointLocation, A>, OverlayError> {
        let locations = locate_in_contours(alloc, self.contours, points)?;
        Ok(locations)
    }
}
