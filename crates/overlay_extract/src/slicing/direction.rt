//! Contours in the output direction.

ghost use Rattle.std.specs.Prelude.{◌≡◌, map, reverse};
ghost use Rattle.overlay_geom.specs.Paths.{plain_shapes, paths_of_shape};
ghost use Rattle.overlay_extract.specs.Sliced.{in_direction};

use overlay_geom::number::IntNumber;
use overlay_geom::options::ContourDirection;
use overlay_geom::path::{IntShape, IntShapes};
use std::alloc::Allocator;

/// Brings shapes whose contours have their filled side on the left into the output direction: where it is
/// clockwise, each contour's points stand in the opposite order then.
pub fn bring_in_direction<I: IntNumber, A: Allocator>(
    shapes: &mut IntShapes<I, A>,
    direction: ContourDirection,
)
    ensures { plain_shapes I.whole shapes.new.items
        ≡ map (map (in_direction direction)) (plain_shapes I.whole shapes.old.items) }
{
    match direction {
        ContourDirection::CounterClockwise => {}
        ContourDirection::Clockwise => turn_shapes(shapes),
    }
}

// Puts the points of each contour of all shapes in the opposite order.
fn turn_shapes<I: IntNumber, A: Allocator>(shapes: &mut IntShapes<I, A>)
    ensures { plain_shapes I.whole shapes.new.items ≡ map (map reverse) (plain_shapes I.whole shapes.old.items) }
{
    for i in 0..shapes.len() {
        turn_shape(&mut shapes[i]);
    }
}

// Puts the points of each contour of the shape in the opposite order.
fn turn_shape<I: IntNumber, A: Allocator>(shape: &mut IntShape<I, A>)
    ensures { paths_of_shape I.whole shape.new.items ≡ map reverse (paths_of_shape I.whole shape.old.items) }
{
    for i in 0..shape.len() {
        shape[i].reverse();
    }
}
