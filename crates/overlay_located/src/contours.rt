//! Where points lie in a shape of resolved contours. Many points in many contours are asked together.

ghost use Rattle.std.specs.Prelude.{◌≡◌, ◌≤◌, length, All, IfOk, IfSome};
ghost use Rattle.overlay_geom.specs.Paths.{paths_of_shape};
ghost use Rattle.overlay_geom.specs.Plane.{in_plane};
ghost use Rattle.overlay_geom.specs.Points.{plain_point, plain_points, AllInRange, InRange};
ghost use Rattle.overlay_geom.specs.Resolved.{plain_edges, IsLongEdge, IsResolved};
ghost use Rattle.overlay_relate.specs.Answers.{AnswersWhere};
ghost use Rattle.overlay_relate.specs.Locations.{shape_edges, IsLocatedIn};
ghost use Rattle.overlay_located.specs.Once.{AreToldOnce};

use crate::contour_edges::shape_edges;
use crate::depth::lie_deep;
use crate::parity::parity_location;
use crate::together::pays;
use crate::told_once::{ToldOnce, told_nothing, told_once};
use overlay_geom::edge::IntEdge;
use overlay_geom::number::IntNumber;
use overlay_geom::path::IntContour;
use overlay_geom::point::IntPoint;
use overlay_relate::in_shapes::locate_in_shape;
use overlay_relate::location::PointLocation;
use std::alloc::{AllocError, Allocator};

// Greatest number of points that are asked together.
const TOGETHER: usize = 65_536;

// Greatest number of points that are asked alone where the others are told of together.
const ALONE: usize = 64;

/// Returns where each point lies in the shape, in order, as `overlay_relate::in_shapes::locate_in_shape` does. Where
/// many contours lie over one another (`depth::lie_deep`), and few cross, n points and n edges take about n log^2 n
/// steps.
pub fn locate_in_contours<I: IntNumber, A: Allocator, B: Allocator + Clone>(
    alloc: B,
    contours: &[IntContour<I, A>],
    points: &[IntPoint<I>],
) -> Result<Vec<PointLocation, B>, AllocError>
    requires contours { All (AllInRange I.limit) (paths_of_shape I.whole contours.now) }
    requires resolved { All IsResolved (paths_of_shape I.whole contours.now) }
    requires points { AllInRange I.limit (plain_points I.whole points.now) }
    ensures { IfOk result (λ v. AnswersWhere (IsLocatedIn (paths_of_shape I.whole contours.now))
        (plain_points I.whole points.now) v.items) }
{
    match located_together(alloc.clone()?, contours, points) {
        Ok(Some(located)) => Ok(located),
        Ok(None) | Err(_) => locate_in_shape(alloc, contours, points),
    }
}

// Returns where each point lies, if that pays and few have to be asked alone.
fn located_together<I: IntNumber, A: Allocator, B: Allocator + Clone>(
    alloc: B,
    contours: &[IntContour<I, A>],
    points: &[IntPoint<I>],
) -> Result<Option<Vec<PointLocation, B>>, AllocError>
    requires contours { All (AllInRange I.limit) (paths_of_shape I.whole contours.now) }
    requires resolved { All IsResolved (paths_of_shape I.whole contours.now) }
    requires points { AllInRange I.limit (plain_points I.whole points.now) }
    ensures { IfOk result (λ o. IfSome o (λ v. AnswersWhere (IsLocatedIn (paths_of_shape I.whole contours.now))
        (plain_points I.whole points.now) v.items)) }
{
    if !lie_deep(contours, points) {
        return Ok(None);
    }
    let edges = shape_edges(alloc.clone()?, contours)?;
    if pays(edges.len(), points.len()) {
        locate_each(alloc, contours, &edges, points)
    } else {
        Ok(None)
    }
}

// Returns where each point lies, if few have to be asked alone.
fn locate_each<I: IntNumber, A: Allocator, B: Allocator + Clone>(
    alloc: B,
    contours: &[IntContour<I, A>],
    edges: &[IntEdge<I>],
    points: &[IntPoint<I>],
) -> Result<Option<Vec<PointLocation, B>>, AllocError>
    requires contours { All (AllInRange I.limit) (paths_of_shape I.whole contours.now) }
    requires resolved { All IsResolved (paths_of_shape I.whole contours.now) }
    requires edges { plain_edges I.whole edges.now ≡ shape_edges (paths_of_shape I.whole contours.now) }
    requires long { All (IsLongEdge I.limit) (plain_edges I.whole edges.now) }
    requires points { AllInRange I.limit (plain_points I.whole points.now) }
    ensures { IfOk result (λ o. IfSome o (λ v. AnswersWhere (IsLocatedIn (paths_of_shape I.whole contours.now))
        (plain_points I.whole points.now) v.items)) }
{
    let mut told = told_nothing(alloc.clone()?)?;
    let mut located = Vec::with_capacity(alloc.clone()?, points.len())?;
    for at in 0..points.len() {
        told = told_from(alloc.clone()?, told, edges, points, at)?;
        if told.alone > ALONE {
            return Ok(None);
        }
        let p = points[at];
        let found = parity_location(&told.all, &told.uprights, at % TOGETHER, p);
        let location = location_of(alloc.clone()?, contours, found, p)?;
        located.push(location)?;
    }
    Ok(Some(located))
}

// Returns what the edges tell of the points from the place on, where all before were asked; else what is told already.
fn told_from<I: IntNumber, B: Allocator + Clone>(
    alloc: B,
    told: ToldOnce<I, B>,
    edges: &[IntEdge<I>],
    points: &[IntPoint<I>],
    place: usize,
) -> Result<ToldOnce<I, B>, AllocError>
    requires long { All (IsLongEdge I.limit) (plain_edges I.whole edges.now) }
    requires within { place ≤ length points.now }
    requires told { AreToldOnce I.whole (plain_edges I.whole edges.now) told.all.items told.uprights.items }
    ensures { IfOk result (λ t. AreToldOnce I.whole (plain_edges I.whole edges.now) t.all.items t.uprights.items) }
{
    if place % TOGETHER != 0 {
        return Ok(told);
    }
    told_first(alloc, edges, &points[place..], TOGETHER)
}

// Returns what the edges tell of the first points, at most of that number.
fn told_first<I: IntNumber, B: Allocator + Clone>(
    alloc: B,
    edges: &[IntEdge<I>],
    points: &[IntPoint<I>],
    most: usize,
) -> Result<ToldOnce<I, B>, AllocError>
    requires { All (IsLongEdge I.limit) (plain_edges I.whole edges.now) }
    ensures { IfOk result (λ t. AreToldOnce I.whole (plain_edges I.whole edges.now) t.all.items t.uprights.items) }
{
    if points.len() > most {
        told_once(alloc, edges, &points[..most])
    } else {
        told_once(alloc, edges, points)
    }
}

// Returns where the point lies: as it was found, or asked alone.
fn location_of<I: IntNumber, A: Allocator, B: Allocator + Clone>(
    alloc: B,
    contours: &[IntContour<I, A>],
    found: Option<PointLocation>,
    p: IntPoint<I>,
) -> Result<PointLocation, AllocError>
    requires contours { All (AllInRange I.limit) (paths_of_shape I.whole contours.now) }
    requires resolved { All IsResolved (paths_of_shape I.whole contours.now) }
    requires point { InRange I.limit (plain_point I.whole p) }
    requires found { IfSome found
        (IsLocatedIn (paths_of_shape I.whole contours.now) (in_plane (plain_point I.whole p))) }
    ensures { IfOk result (IsLocatedIn (paths_of_shape I.whole contours.now) (in_plane (plain_point I.whole p))) }
{
    match found {
        Some(location) => Ok(location),
        None => locate_alone(alloc, contours, p),
    }
}

// Returns where the point lies.
fn locate_alone<I: IntNumber, A: Allocator, B: Allocator + Clone>(
    alloc: B,
    contours: &[IntContour<I, A>],
    p: IntPoint<I>,
) -> Result<PointLocation, AllocError>
    requires contours { All (AllInRange I.limit) (paths_of_shape I.whole contours.now) }
    requires resolved { All IsResolved (paths_of_shape I.whole contours.now) }
    requires point { InRange I.limit (plain_point I.whole p) }
    ensures { IfOk result (IsLocatedIn (paths_of_shape I.whole contours.now) (in_plane (plain_point I.whole p))) }
{
    let located = locate_in_shape(alloc, contours, &[p])?;
    Ok(located[0])
}
