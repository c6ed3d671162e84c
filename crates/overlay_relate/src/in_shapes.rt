//! Where points lie in shapes.

ghost use Rattle.std.specs.Prelude.{◌≡◌, ◌++◌, [], ◌∷◌, length, All, IfOk, OnOk};
ghost use Rattle.overlay_geom.specs.Points.{plain_points, AllInRange};
ghost use Rattle.overlay_geom.specs.Paths.{paths_of_shape, plain_shapes};
ghost use Rattle.overlay_geom.specs.Resolved.{IsResolved};
ghost use Rattle.overlay_relate.specs.Answers.{AnswersWhere};
ghost use Rattle.overlay_relate.specs.Locations.{IsLocatedIn, IsLocatedAmong};
ghost use Rattle.overlay_relate.specs.Runs.{AreByX};

use crate::in_contour::locate_in_contour;
use crate::joined::{Parts, join_from};
use crate::location::PointLocation;
use crate::queries::{in_given_order, points_asked, queries_by_x};
use crate::runs::{run_over, run_over_all};
use overlay_geom::number::IntNumber;
use overlay_geom::path::{IntContour, IntShape};
use overlay_geom::point::IntPoint;
use std::alloc::{AllocError, Allocator};

/// Returns where each point lies in the shape, in order.
pub fn locate_in_shape<I: IntNumber, A: Allocator, B: Allocator + Clone>(
    alloc: B,
    contours: &[IntContour<I, A>],
    points: &[IntPoint<I>],
) -> Result<Vec<PointLocation, B>, AllocError>
    requires contours { All (AllInRange I.limit) (paths_of_shape I.whole contours.now) }
    requires resolved { All IsResolved (paths_of_shape I.whole contours.now) }
    requires points { AllInRange I.limit (plain_points I.whole points.now) }
    ensures located { IfOk result (λ v. AnswersWhere (IsLocatedIn (paths_of_shape I.whole contours.now))
        (plain_points I.whole points.now) v.items) }
{
    let queries = queries_by_x(alloc.clone()?, points)?;
    let asked = points_asked(alloc.clone()?, &queries)?;
    let located = located_in_shape(alloc.clone()?, contours, &asked)?;
    in_given_order(alloc, points, &queries, &located)
}

/// Returns where each point lies among the shapes, in order.
pub fn locate_in_shapes<I: IntNumber, A: Allocator, B: Allocator + Clone>(
    alloc: B,
    shapes: &[IntShape<I, A>],
    points: &[IntPoint<I>],
) -> Result<Vec<PointLocation, B>, AllocError>
    requires shapes { All (All (AllInRange I.limit)) (plain_shapes I.whole shapes.now) }
    requires resolved { All (All IsResolved) (plain_shapes I.whole shapes.now) }
    requires points { AllInRange I.limit (plain_points I.whole points.now) }
    ensures located { IfOk result (λ v. AnswersWhere (IsLocatedAmong (plain_shapes I.whole shapes.now))
        (plain_points I.whole points.now) v.items) }
{
    let queries = queries_by_x(alloc.clone()?, points)?;
    let asked = points_asked(alloc.clone()?, &queries)?;
    let located = located_in_shapes(alloc.clone()?, shapes, &asked)?;
    in_given_order(alloc, points, &queries, &located)
}

/// Returns where each of the points, sorted by x, lies among the shapes.
fn located_in_shapes<I: IntNumber, A: Allocator, B: Allocator + Clone>(
    alloc: B,
    shapes: &[IntShape<I, A>],
    points: &[IntPoint<I>],
) -> Result<Vec<PointLocation, B>, AllocError>
    requires shapes { All (All (AllInRange I.limit)) (plain_shapes I.whole shapes.now) }
    requires resolved { All (All IsResolved) (plain_shapes I.whole shapes.now) }
    requires points { AllInRange I.limit (plain_points I.whole points.now) }
    requires order { AreByX (plain_points I.whole points.now) }
    ensures located { IfOk result (λ v. AnswersWhere (IsLocatedAmong (plain_shapes I.whole shapes.now))
        (plain_points I.whole points.now) v.items) }
{
    let mut located = outside(alloc.clone()?, points)?;
    for shape in shapes {
        join_shape(alloc.clone()?, &mut located, shape, points)?;
    }
    Ok(located)
}

/// Joins the locations of the points, sorted by x, in one more shape to those among some shapes. Only points that do
/// not lie beside it are asked.
fn join_shape<I: IntNumber, A: Allocator, B: Allocator + Clone>(
    alloc: B,
    located: &mut Vec<PointLocation, B>,
    shape: &[IntContour<I, A>],
    points: &[IntPoint<I>],
) -> Result<(), AllocError>
    requires contours { All (AllInRange I.limit) (paths_of_shape I.whole shape.now) }
    requires resolved { All IsResolved (paths_of_shape I.whole shape.now) }
    requires points { AllInRange I.limit (plain_points I.whole points.now) }
    requires order { AreByX (plain_points I.whole points.now) }
    requires counted { length located.old.items ≡ length points.now }
    ensures joined { OnOk result ((seen : _)
        → AnswersWhere (IsLocatedAmong seen) (plain_points I.whole points.now) located.old.items
        → AnswersWhere (IsLocatedAmong (seen ++ paths_of_shape I.whole shape.now ∷ []))
        (plain_points I.whole points.now) located.new.items) }
    ensures counted { OnOk result (length located.new.items ≡ length points.now) }
{
    let (start, end) = run_over_all(shape, points);
    if start == end {
        return Ok(());
    }
    let here = located_in_shape(alloc, shape, &points[start..end])?;
    join_from(Parts::Shapes, located, start, &here);
    Ok(())
}

/// Returns where each of the points, sorted by x, lies in the shape.
fn located_in_shape<I: IntNumber, A: Allocator, B: Allocator + Clone>(
    alloc: B,
    contours: &[IntContour<I, A>],
    points: &[IntPoint<I>],
) -> Result<Vec<PointLocation, B>, AllocError>
    requires contours { All (AllInRange I.limit) (paths_of_shape I.whole contours.now) }
    requires resolved { All IsResolved (paths_of_shape I.whole contours.now) }
    requires points { AllInRange I.limit (plain_points I.whole points.now) }
    requires order { AreByX (plain_points I.whole points.now) }
    ensures located { IfOk result (λ v. AnswersWhere (IsLocatedIn (paths_of_shape I.whole contours.now))
        (plain_points I.whole points.now) v.items) }
{
    let mut located = outside(alloc.clone()?, points)?;
    for contour in contours {
        join_contour(alloc.clone()?, &mut located, contour, points)?;
    }
    Ok(located)
}

/// Joins the locations of the points, sorted by x, in one more contour of a shape to those in some contours. Only
/// points that do not lie beside it are asked.
fn join_contour<I: IntNumber, B: Allocator + Clone>(
    alloc: B,
    located: &mut Vec<PointLocation, B>,
    contour: &[IntPoint<I>],
    points: &[IntPoint<I>],
) -> Result<(), AllocError>
    requires contour { AllInRange I.limit (plain_points I.whole contour.now) }
    requires resolved { IsResolved (plain_points I.whole contour.now) }
    requires points { AllInRange I.limit (plain_points I.whole points.now) }
    requires order { AreByX (plain_points I.whole points.now) }
    requires counted { length located.old.items ≡ length points.now }
    ensures joined { OnOk result ((seen : _)
        → AnswersWhere (IsLocatedIn seen) (plain_points I.whole points.now) located.old.items
        → AnswersWhere (IsLocatedIn (seen ++ plain_points I.whole contour.now ∷ []))
        (plain_points I.whole points.now) located.new.items) }
    ensures counted { OnOk result (length located.new.items ≡ length points.now) }
{
    let (start, end) = run_over(contour, points);
    if start == end {
        return Ok(());
    }
    let here = locate_in_contour(alloc, contour, &points[start..end])?;
    join_from(Parts::Contours, located, start, &here);
    Ok(())
}

/// `Outside` for each of the points, where there is no contour.
fn outside<I: IntNumber, A: Allocator>(
    alloc: A,
    points: &[IntPoint<I>],
) -> Result<Vec<PointLocation, A>, AllocError>
    ensures value { IfOk result (λ v. AnswersWhere (λ p l. l ≡ PointLocation.Outside)
        (plain_points I.whole points.now) v.items) }
{
    let mut answers = Vec::new(alloc);
    answers.resize(points.len(), PointLocation::Outside)?;
    Ok(answers)
}
