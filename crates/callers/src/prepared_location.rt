//! Where a point lies in the shape that contours make, which may cross themselves and each other.

ghost use Rattle.std.specs.Prelude.{IfOk, All, List, false};
ghost use Rattle.overlay_geom.specs.Rules.{is_filled};
ghost use Rattle.overlay_geom.specs.declared.options.ShapeType.TheVariants.{Subject};
ghost use Rattle.overlay_geom.specs.Edges.{CountedEdge};
ghost use Rattle.overlay_geom.specs.Paths.{paths_of_shape};
ghost use Rattle.overlay_geom.specs.Plane.{in_plane};
ghost use Rattle.overlay_geom.specs.Points.{plain_point, AllInRange};
ghost use Rattle.overlay_builder.specs.GivenPaths.{paths_for};
ghost use Rattle.overlay_relate.specs.Bounded.{IsLocatedUnder};
ghost use Rattle.overlay_relate.specs.Exchanged.{IsArrangementOf};

use overlay_builder::solver::Solver;
use overlay_geom::error::OverlayError;
use overlay_geom::fill_rule::FillRule;
use overlay_geom::integer::OverlayInt;
use overlay_geom::path::IntShape;
use overlay_geom::point::IntPoint;
use overlay_relate::location::PointLocation;
use overlay_relate::prepared::PreparedShape;
use std::alloc::Allocator;

/// Returns where the point lies in the shape that the contours make under the fill rule, in some arrangement of them.
pub fn locate_prepared<I: OverlayInt, A: Allocator + Clone>(
    alloc: A,
    contours: &IntShape<I, A>,
    fill_rule: FillRule,
    solver: Solver,
    point: IntPoint<I>,
) -> Result<PointLocation, OverlayError>
    requires { All (AllInRange I.limit) (paths_of_shape I.whole contours.now.items) }
    ensures { IfOk result (λ l. (es : List CountedEdge) × (IsArrangementOf false solver
        (paths_for Subject (paths_of_shape I.whole contours.now.items)) es
        × IsLocatedUnder (is_filled fill_rule) es (in_plane (plain_point I.whole point)) l)) }
{
    let shape = PreparedShape::new(alloc, contours, fill_rule, solver)?;
    Ok(shape.locate(point))
}
