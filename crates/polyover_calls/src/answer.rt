//! Shapes as arrays, and these put into arrays of a caller.

ghost use Rattle.std.specs.Prelude.{◌≡◌, map, IfOk, IsOkUnless};
ghost use Rattle.overlay_geom.specs.Flat.{shapes_in};
ghost use Rattle.overlay_geom.specs.FlatShapes.{AreShapesPacked};
ghost use Rattle.overlay_geom.specs.Paths.{plain_shapes};
ghost use Rattle.polyover_calls.specs.Written.{AreFlattened, ArePut, flat_shapes, shape_room};

use crate::counts::Counts;
use crate::flatten::{coordinates_of, ends_of};
use crate::narrowed::ArrayInt;
use crate::status::Status;
use crate::write::write_over;
use overlay_geom::flat::shapes::FlatShapesBuffer;
use overlay_geom::number::IntNumber;
use overlay_geom::path::IntShape;
use std::alloc::Global;

/// Shapes as arrays: the coordinates, the ends of contours among the points, and those of shapes among the contours.
#[derive(Drop)]
pub struct Answer<I> {
    pub(crate) coordinates: Vec<I, Global>,
    pub(crate) contour_ends: Vec<usize, Global>,
    pub(crate) shape_ends: Vec<usize, Global>,
}

/// The shapes, one behind the other. The only refusal is `Memory`.
pub fn flattened<I: IntNumber>(
    alloc: Global,
    shapes: &[IntShape<I, Global>],
) -> Result<Answer<I>, Status>
    ensures flattened { IfOk result (λ a. AreFlattened I.whole (plain_shapes I.whole shapes.now)
        (flat_shapes a.coordinates.items a.contour_ends.items a.shape_ends.items)) }
    ensures only { IsOkUnless result Status.Memory }
{
    let flat = FlatShapesBuffer::from_shapes(alloc, shapes)?;
    flat_answer(alloc, flat)
}

/// The shapes of a buffer, whose parts are dropped one by one once they are read. The only refusal is `Memory`.
pub fn flat_answer<I: IntNumber>(
    alloc: Global,
    flat: FlatShapesBuffer<I, Global>,
) -> Result<Answer<I>, Status>
    requires packed { AreShapesPacked flat.points.items flat.contour_ranges.items flat.shape_ranges.items }
    ensures flattened { IfOk result (λ a. AreFlattened I.whole
        (shapes_in I.whole flat.points.items flat.contour_ranges.items flat.shape_ranges.items)
        (flat_shapes a.coordinates.items a.contour_ends.items a.shape_ends.items)) }
    ensures only { IsOkUnless result Status.Memory }
{
    let contour_ends = ends_of(alloc, &flat.contour_ranges)?;
    drop(flat.contour_ranges);
    let shape_ends = ends_of(alloc, &flat.shape_ranges)?;
    drop(flat.shape_ranges);
    let coordinates = coordinates_of(alloc, &flat.points)?;
    Ok(Answer {
        coordinates,
        contour_ends,
        shape_ends,
    })
}

/// Returns the answer at 32 bits in this type. The only refusal is `Memory`.
pub(crate) fn widened<I: ArrayInt>(alloc: Global, answer: Answer<i32>) -> Result<Answer<I>, Status>
    ensures coordinates { IfOk result (λ a. map I.whole a.coordinates.items ≡ answer.coordinates.items) }
    ensures contour_ends { IfOk result (λ a. a.contour_ends.items ≡ answer.contour_ends.items) }
    ensures shape_ends { IfOk result (λ a. a.shape_ends.items ≡ answer.shape_ends.items) }
    ensures only { IsOkUnless result Status.Memory }
{
    let coordinates = I::widened(alloc, answer.coordinates)?;
    Ok(Answer {
        coordinates,
        contour_ends: answer.contour_ends,
        shape_ends: answer.shape_ends,
    })
}

/// Puts the answer into the arrays, and its counts: `Done`; or `TooSmall`, and the arrays stay as they are.
pub(crate) fn put<I: IntNumber>(
    answer: &Answer<I>,
    coordinates: &mut [I],
    contour_ends: &mut [usize],
    shape_ends: &mut [usize],
    counts: &mut Counts,
) -> Status
    ensures { ArePut
        (flat_shapes answer.now.coordinates.items answer.now.contour_ends.items answer.now.shape_ends.items)
        (shape_room coordinates.old contour_ends.old shape_ends.old counts.old)
        (shape_room coordinates.new contour_ends.new shape_ends.new counts.new)
        result }
{
    *counts = Counts {
        coordinates: answer.coordinates.len(),
        contours: answer.contour_ends.len(),
        shapes: answer.shape_ends.len(),
    };
    if counts.coordinates > coordinates.len()
        || counts.contours > contour_ends.len()
        || counts.shapes > shape_ends.len()
    {
        return Status::TooSmall;
    }
    write_over(coordinates, &answer.coordinates);
    write_over(contour_ends, &answer.contour_ends);
    write_over(shape_ends, &answer.shape_ends);
    Status::Done
}
