//! Where points lie among shapes.

ghost use Rattle.std.specs.Prelude.{IfOk, All};
ghost use Rattle.overlay_geom.specs.Points.{plain_points, AllInRange};
ghost use Rattle.overlay_geom.specs.Paths.{plain_shapes};
ghost use Rattle.overlay_geom.specs.Resolved.{IsResolved};
ghost use Rattle.overlay_relate.specs.Answers.{AnswersWhere};
ghost use Rattle.overlay_relate.specs.Locations.{IsLocatedAmong};

use overlay_geom::error::OverlayError;
use overlay_geom::integer::OverlayInt;
use overlay_geom::path::IntShapes;
use overlay_geom::point::IntPoint;
use overlay_relate::containment::IntPointContainment;
use overlay_relate::location::PointLocation;
use std::alloc::Allocator;

/// Returns where each point lies among the shapes.
pub fn locate<I: OverlayInt, A: Allocator + Clone>(
    alloc: A,
    shapes: &IntShapes<I, A>,
    points: &[IntPoint<I>],
) -> Result<Vec<PointLocation, A>, OverlayError>
    requires shapes { All (All (AllInRange I.limit)) (plain_shapes I.whole shapes.now.items) }
    requires resolved { All (All IsResolved) (plain_shapes I.whole shapes.now.items) }
    requires points { AllInRange I.limit (plain_points I.whole points.now) }
    ensures { IfOk result (λ v. AnswersWhere (IsLocatedAmong (plain_shapes I.whole shapes.now.items))
        (plain_points I.whole points.now) v.items) }
{
    let locations = shapes.locate_points(alloc, points)?;
    Ok(locations)
}
