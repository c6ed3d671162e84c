//! Shapes assembled from contours: each outline, followed by the holes of its shape.

ghost use Rattle.std.specs.Prelude.{◌≡◌, ◌<◌, length, map, All, IfOk, OnOk};
ghost use Rattle.std.specs.List.{AllZip};
ghost use Rattle.overlay_geom.specs.Paths.{plain_shapes, paths_of_shape};
ghost use Rattle.overlay_geom.specs.Plane.{points_of};
ghost use Rattle.overlay_geom.specs.Points.{plain_points};
ghost use Rattle.overlay_geom.specs.Thinned.{IsKeptOrThinned};
ghost use Rattle.overlay_plane.specs.BoundContours.{walks_in};
ghost use Rattle.overlay_plane.specs.PlacedContours.{walk_at, walks_at};
ghost use Rattle.overlay_plane.specs.ShapeWindings.{points_of_shapes, AreKeptOrThinned};
ghost use Rattle.overlay_walk.specs.GroupedContours.{plain_contours};
ghost use Rattle.overlay_walk.specs.Steps.{plain_steps, IsLong};
ghost use Rattle.overlay_extract.specs.Places.{place_list, place_lists, AreInside};

use crate::binding::places::ShapePlaces;
use overlay_geom::number::IntNumber;
use overlay_geom::path::{IntContour, IntShape, IntShapes};
use overlay_geom::thin::thinned;
use overlay_walk::contour::Contour;
use overlay_walk::step::Step;
use std::alloc::{AllocError, Allocator};

/// Returns the shapes with the contours at these places. The points of a contour are the starts of its steps. Unless
/// `keeps_points`, points collinear with their two neighbours are dropped.
pub fn assembled<I: IntNumber, A: Allocator + Clone>(
    alloc: A,
    contours: &[Contour<I, A>],
    places: &[ShapePlaces<A>],
    keeps_points: bool,
) -> Result<IntShapes<I, A>, AllocError>
    requires long { All (All (IsLong I.limit)) (walks_in (plain_contours I.whole contours.now)) }
    requires inside { AreInside (length (plain_contours I.whole contours.now)) (place_lists places.now) }
    ensures shapes { IfOk result (λ v. AreKeptOrThinned keeps_points
        (points_of_shapes (walks_at (plain_contours I.whole contours.now) (place_lists places.now)))
        (plain_shapes I.whole v.items)) }
{
    let mut shapes = Vec::with_capacity(alloc.clone()?, places.len())?;
    let mut room = Vec::new(alloc.clone()?);
    for shape in places {
        shapes.push(shape_at(alloc.clone()?, &mut room, contours, shape, keeps_points)?)?;
    }
    Ok(shapes)
}

// Returns the shape with the contours at these places. The room lends its memory.
fn shape_at<I: IntNumber, A: Allocator + Clone>(
    alloc: A,
    room: &mut IntContour<I, A>,
    contours: &[Contour<I, A>],
    places: &ShapePlaces<A>,
    keeps_points: bool,
) -> Result<IntShape<I, A>, AllocError>
    requires long { All (All (IsLong I.limit)) (walks_in (plain_contours I.whole contours.now)) }
    requires inside { All (λ k. k < length (plain_contours I.whole contours.now)) (place_list places.now) }
    ensures shape { IfOk result (λ v. AllZip (IsKeptOrThinned keeps_points)
        (map points_of (map (walk_at (plain_contours I.whole contours.now)) (place_list places.now)))
        (paths_of_shape I.whole v.items)) }
{
    let count = places.count();
    let mut shape = Vec::with_capacity(alloc.clone()?, count)?;
    for i in 0..count {
        let place = places.place(i);
        shape.push(contour_in(alloc.clone()?, room, &contours[place].steps, keeps_points)?)?;
    }
    Ok(shape)
}

/// Returns the points at which the steps of the walk begin. Unless `keeps_points`, points collinear with their two
/// neighbours are dropped.
pub fn contour<I: IntNumber, A: Allocator + Clone>(
    alloc: A,
    walk: &[Step<I>],
    keeps_points: bool,
) -> Result<IntContour<I, A>, AllocError>
    requires { All (IsLong I.limit) (plain_steps I.whole walk.now) }
    ensures ok { IfOk result (λ v. IsKeptOrThinned keeps_points (points_of (plain_steps I.whole walk.now))
        (plain_points I.whole v.items)) }
{
    let points = points_of(alloc.clone()?, walk)?;
    if keeps_points {
        return Ok(points);
    }
    thinned(alloc, &points)
}

// Returns the contour that [`contour`] gives. The room lends its memory.
fn contour_in<I: IntNumber, A: Allocator>(
    alloc: A,
    room: &mut IntContour<I, A>,
    walk: &[Step<I>],
    keeps_points: bool,
) -> Result<IntContour<I, A>, AllocError>
    requires { All (IsLong I.limit) (plain_steps I.whole walk.now) }
    ensures ok { IfOk result (λ v. IsKeptOrThinned keeps_points (points_of (plain_steps I.whole walk.now))
        (plain_points I.whole v.items)) }
{
    if keeps_points {
        return points_of(alloc, walk);
    }
    write_points(room, walk)?;
    thinned(alloc, room)
}

// Returns the points at which the steps of the walk begin.
fn points_of<I: IntNumber, A: Allocator>(
    alloc: A,
    walk: &[Step<I>],
) -> Result<IntContour<I, A>, AllocError>
    ensures ok { IfOk result (λ v. plain_points I.whole v.items ≡ points_of (plain_steps I.whole walk.now)) }
{
    let mut points = Vec::with_capacity(alloc, walk.len())?;
    write_points(&mut points, walk)?;
    Ok(points)
}

/// Puts the points at which the steps of the walk begin into the list, and drops those that it had.
pub(crate) fn write_points<I: IntNumber, A: Allocator>(
    points: &mut IntContour<I, A>,
    walk: &[Step<I>],
) -> Result<(), AllocError>
    ensures ok { OnOk result (plain_points I.whole points.new.items ≡ points_of (plain_steps I.whole walk.now)) }
{
    points.clear();
    points.reserve(walk.len())?;
    for step in walk {
        points.push_reserved(step.from);
    }
    Ok(())
}
