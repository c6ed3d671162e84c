//! Points in contours and shapes.

ghost use Rattle.std.specs.Prelude.{◌≡◌, [], ◌∷◌, List, All, IfOk, IsOkUnless, map};
ghost use Rattle.overlay_geom.specs.Plane.{Point};
ghost use Rattle.overlay_geom.specs.Points.{plain_points, AllInRange};
ghost use Rattle.overlay_geom.specs.Paths.{paths_of_shape, plain_shapes};
ghost use Rattle.overlay_geom.specs.Resolved.{IsResolved};
ghost use Rattle.overlay_relate.specs.Answers.{AnswersWhere, AnswersWhether};
ghost use Rattle.overlay_relate.specs.Locations.{shapes_edges};
ghost use Rattle.overlay_relate.specs.Locations.{is_in_shapes, is_inside};
ghost use Rattle.overlay_relate.specs.Locations.{IsLocatedAmong};

use crate::in_contour::locate_in_contour;
use crate::in_shapes::{locate_in_shape, locate_in_shapes};
use crate::location::PointLocation;
use overlay_geom::error::OverlayError;
use overlay_geom::integer::OverlayInt;
use overlay_geom::path::{IntContour, IntShape, IntShapes};
use overlay_geom::point::IntPoint;
use std::alloc::{AllocError, Allocator};

mod borrowed;

/// Where points lie: in a contour, in a shape, whose contours are joined by exclusive or, or in several
/// shapes, joined by or.
///
/// All points are in range, and each contour is resolved. Answers stand in the order of the points. The
/// only refusal is `Memory`; nothing of the caller's is changed.
pub trait IntPointContainment<I: OverlayInt> {
    // The whole points of each contour of each shape.
    ghost shapes: { Self → List (List (List Point)) };

    /// Returns for each point that is on no edge of the contours whether it is inside: whether the
    /// contour winds an odd number of times round it. What it answers for other points is left open.
    fn contains_points<A: Allocator + Clone>(
        &self,
        alloc: A,
        points: &[IntPoint<I>],
    ) -> Result<Vec<bool, A>, OverlayError>
        requires self_in_range { All (All (AllInRange I.limit)) (shapes self.now) }
        requires resolved { All (All IsResolved) (shapes self.now) }
        requires points_in_range { AllInRange I.limit (plain_points I.whole points.now) }
        ensures inside { IfOk result (λ v. AnswersWhether (shapes_edges (shapes self.now))
            (is_in_shapes (shapes self.now))
            (plain_points I.whole points.now) v.items) }
        ensures err { IsOkUnless result OverlayError.Memory }
    {
        let locations = self.locate_points(alloc.clone()?, points)?;
        let inside = are_inside(alloc, &locations)?;
        Ok(inside)
    }

    /// Returns where each point lies. A point on an edge of a shape is on its boundary, also on that of
    /// a hole; of several shapes, a point inside one of them is inside, else one on the boundary of
    /// one is on the boundary.
    fn locate_points<A: Allocator + Clone>(
        &self,
        alloc: A,
        points: &[IntPoint<I>],
    ) -> Result<Vec<PointLocation, A>, OverlayError>
        requires self_in_range { All (All (AllInRange I.limit)) (shapes self.now) }
        requires resolved { All (All IsResolved) (shapes self.now) }
        requires points_in_range { AllInRange I.limit (plain_points I.whole points.now) }
        ensures located { IfOk result (λ v. AnswersWhere (IsLocatedAmong (shapes self.now))
            (plain_points I.whole points.now) v.items) }
        ensures err { IsOkUnless result OverlayError.Memory };
}

impl<I: OverlayInt, B: Allocator> IntPointContainment<I> for IntContour<I, B> {
    ghost shapes = { λ c. (plain_points I.whole c.items ∷ []) ∷ [] };

    /// Returns where each point lies in the contour.
    fn locate_points<A: Allocator + Clone>(
        &self,
        alloc: A,
        points: &[IntPoint<I>],
    ) -> Result<Vec<PointLocation, A>, OverlayError> {
        let locations = locate_in_contour(alloc, self, points)?;
        Ok(locations)
    }
}

impl<I: OverlayInt, B: Allocator> IntPointContainment<I> for IntShape<I, B> {
    ghost shapes = { λ s. paths_of_shape I.whole s.items ∷ [] };

    /// Returns where each point lies in the shape.
    fn locate_points<A: Allocator + Clone>(
        &self,
        alloc: A,
        points: &[IntPoint<I>],
    ) -> Result<Vec<PointLocation, A>, OverlayError> {
        let locations = locate_in_shape(alloc, self, points)?;
        Ok(locations)
    }
}

impl<I: OverlayInt, B: Allocator> IntPointContainment<I> for IntShapes<I, B> {
    ghost shapes = { λ ss. plain_shapes I.whole ss.items };

    /// Returns where each point lies in the shapes.
    fn locate_points<A: Allocator + Clone>(
        &self,
        alloc: A,
        points: &[IntPoint<I>],
    ) -> Result<Vec<PointLocation, A>, OverlayError> {
        let locations = locate_in_shapes(alloc, self, points)?;
        Ok(locations)
    }
}

// Which of the locations are `Inside`.
fn are_inside<A: Allocator>(
    alloc: A,
    locations: &[PointLocation],
) -> Result<Vec<bool, A>, AllocError>
    ensures inside { IfOk result (λ v. v.items ≡ map is_inside locations.now) }
{
    let mut inside = Vec::with_capacity(alloc, locations.len())?;
    for l in locations {
        inside.push(is_inside(*l))?;
    }
    Ok(inside)
}

// Whether the location is `Inside`.
fn is_inside(location: PointLocation) -> bool
    ensures { result ≡ is_inside location }
{
    match location {
        PointLocation::Inside => true,
        PointLocation::Boundary | PointLocation::Outside => false,
    }
}
