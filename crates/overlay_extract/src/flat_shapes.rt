//! Shapes assembled from contours, with all points in a single list.

ghost use Rattle.std.specs.Prelude.{◌≡◌, ◌<◌, ◌++◌, ◌∷◌, [], length, map, All, IfOk, OnOk};
ghost use Rattle.overlay_geom.specs.Flat.{shapes_in};
ghost use Rattle.overlay_geom.specs.FlatShapes.{AreShapesPacked};
ghost use Rattle.overlay_geom.specs.Plane.{points_of};
ghost use Rattle.overlay_plane.specs.BoundContours.{walks_in};
ghost use Rattle.overlay_plane.specs.PlacedContours.{walk_at, walks_at};
ghost use Rattle.overlay_plane.specs.ShapeWindings.{points_of_shapes, AreKeptOrThinned};
ghost use Rattle.overlay_walk.specs.GroupedContours.{plain_contours};
ghost use Rattle.overlay_walk.specs.Steps.{plain_steps, IsLong};
ghost use Rattle.overlay_extract.specs.Places.{place_list, place_lists, AreInside};
ghost use Rattle.overlay_extract.specs.TakenBehind.{IsTakenBehind, AreTakenBehind};

use crate::assemble::write_points;
use crate::binding::places::ShapePlaces;
use overlay_geom::flat::shapes::FlatShapesBuffer;
use overlay_geom::number::IntNumber;
use overlay_geom::point::IntPoint;
use overlay_geom::thin::push_thinned;
use overlay_walk::contour::Contour;
use overlay_walk::step::Step;
use std::alloc::{AllocError, Allocator};

// Lists that lend their memory to one contour after the other. What they hold changes no answer.
#[derive(Drop)]
struct ContourRoom<I, A: Allocator> {
    // the points of the contour's walk
    points: Vec<IntPoint<I>, A>,
    // the points that thinning leaves
    bent: Vec<IntPoint<I>, A>,
}

/// Returns the shapes that [`assembled`](crate::assemble::assembled) gives, with their points in a single list, without
/// gaps.
pub fn flat_assembled<I: IntNumber, A: Allocator + Clone>(
    alloc: A,
    contours: &[Contour<I, A>],
    places: &[ShapePlaces<A>],
    keeps_points: bool,
) -> Result<FlatShapesBuffer<I, A>, AllocError>
    requires long { All (All (IsLong I.limit)) (walks_in (plain_contours I.whole contours.now)) }
    requires inside { AreInside (length (plain_contours I.whole contours.now)) (place_lists places.now) }
    ensures shapes { IfOk result (λ b. AreKeptOrThinned keeps_points
        (points_of_shapes (walks_at (plain_contours I.whole contours.now) (place_lists places.now)))
        (shapes_in I.whole b.points.items b.contour_ranges.items b.shape_ranges.items)) }
    ensures packed { IfOk result
        (λ b. AreShapesPacked b.points.items b.contour_ranges.items b.shape_ranges.items) }
{
    let mut room = room_for_contours(&alloc)?;
    let mut flat = no_shapes(alloc, contours.len(), places.len())?;
    for shape in places {
        push_shape(&mut flat, &mut room, contours, shape, keeps_points)?;
    }
    Ok(flat)
}

// Returns a buffer without shapes, with room for the ranges of contours and of shapes.
fn no_shapes<I: IntNumber, A: Allocator + Clone>(
    alloc: A,
    contours: usize,
    shapes: usize,
) -> Result<FlatShapesBuffer<I, A>, AllocError>
    ensures points { IfOk result (λ b. b.points.items ≡ []) }
    ensures contour_ranges { IfOk result (λ b. b.contour_ranges.items ≡ []) }
    ensures shape_ranges { IfOk result (λ b. b.shape_ranges.items ≡ []) }
{
    let contour_ranges = Vec::with_capacity(alloc.clone()?, contours)?;
    let shape_ranges = Vec::with_capacity(alloc.clone()?, shapes)?;
    Ok(FlatShapesBuffer {
        points: Vec::new(alloc),
        contour_ranges,
        shape_ranges,
    })
}

// Returns the room, without memory at first.
fn room_for_contours<I: IntNumber, A: Allocator + Clone>(
    alloc: &A,
) -> Result<ContourRoom<I, A>, AllocError> {
    let points = Vec::new(alloc.clone()?);
    let bent = Vec::new(alloc.clone()?);
    Ok(ContourRoom { points, bent })
}

// Adds the shape with the contours at these places as the last shape. On a refusal some contours may stay.
fn push_shape<I: IntNumber, A: Allocator>(
    flat: &mut FlatShapesBuffer<I, A>,
    room: &mut ContourRoom<I, A>,
    contours: &[Contour<I, A>],
    places: &ShapePlaces<A>,
    keeps_points: bool,
) -> Result<(), AllocError>
    requires long { All (All (IsLong I.limit)) (walks_in (plain_contours I.whole contours.now)) }
    requires inside { All (λ k. k < length (plain_contours I.whole contours.now)) (place_list places.now) }
    ensures contours { OnOk result (AreTakenBehind I.whole keeps_points
        (map points_of (map (walk_at (plain_contours I.whole contours.now)) (place_list places.now)))
        flat.old.points.items flat.old.contour_ranges.items flat.new.points.items flat.new.contour_ranges.items) }
    ensures shape { OnOk result (flat.new.shape_ranges.items ≡ flat.old.shape_ranges.items ++ record
        { start = length flat.old.contour_ranges.items; end = length flat.new.contour_ranges.items } ∷ []) }
{
    let start = flat.contour_ranges.len();
    push_contours(flat, room, contours, places, keeps_points)?;
    flat.shape_ranges.push(start..flat.contour_ranges.len())?;
    Ok(())
}

// Adds the points of the contours at these places, and the range of each contour. On a refusal some of them may stay.
fn push_contours<I: IntNumber, A: Allocator>(
    flat: &mut FlatShapesBuffer<I, A>,
    room: &mut ContourRoom<I, A>,
    contours: &[Contour<I, A>],
    places: &ShapePlaces<A>,
    keeps_points: bool,
) -> Result<(), AllocError>
    requires long { All (All (IsLong I.limit)) (walks_in (plain_contours I.whole contours.now)) }
    requires inside { All (λ k. k < length (plain_contours I.whole contours.now)) (place_list places.now) }
    ensures taken { OnOk result (AreTakenBehind I.whole keeps_points
        (map points_of (map (walk_at (plain_contours I.whole contours.now)) (place_list places.now)))
        flat.old.points.items flat.old.contour_ranges.items flat.new.points.items flat.new.contour_ranges.items) }
    ensures same_shapes { flat.new.shape_ranges.items ≡ flat.old.shape_ranges.items }
{
    for i in 0..places.count() {
        let place = places.place(i);
        let start = flat.points.len();
        push_points(&mut flat.points, room, &contours[place].steps, keeps_points)?;
        flat.contour_ranges.push(start..flat.points.len())?;
    }
    Ok(())
}

// Adds the points at which the steps of the walk begin. Unless `keeps_points`, points collinear with their two
// neighbours are left out.
fn push_points<I: IntNumber, A: Allocator>(
    points: &mut Vec<IntPoint<I>, A>,
    room: &mut ContourRoom<I, A>,
    walk: &[Step<I>],
    keeps_points: bool,
) -> Result<(), AllocError>
    requires { All (IsLong I.limit) (plain_steps I.whole walk.now) }
    ensures taken { OnOk result (IsTakenBehind I.whole keeps_points (points_of (plain_steps I.whole walk.now))
        points.old.items points.new.items) }
{
    write_points(&mut room.points, walk)?;
    if keeps_points {
        points.extend_from_slice(&room.points)?;
        return Ok(());
    }
    push_thinned(points, &mut room.bent, &room.points)
}
