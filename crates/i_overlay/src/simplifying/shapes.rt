//! The shapes that are left of a simple contour.

ghost use Rattle.std.specs.Prelude.{◌≡◌, ◌∷◌, [], IfOk};
ghost use Rattle.overlay_geom.specs.Paths.{plain_shapes};
ghost use Rattle.overlay_geom.specs.Points.{plain_points};
ghost use Rattle.i_overlay.specs.Outcome.{shapes_left};

use crate::simplifying::outcome::Outcome;
use overlay_geom::flat::copied;
use overlay_geom::number::IntNumber;
use overlay_geom::path::{IntContour, IntShapes};
use overlay_geom::point::IntPoint;
use std::alloc::{AllocError, Allocator};

/// Returns the shapes of a contour with this outcome: its one shape, as it is given or reversed, or none.
pub fn shapes_left<I: IntNumber, A: Allocator + Clone>(
    alloc: A,
    contour: &[IntPoint<I>],
    outcome: Outcome,
) -> Result<IntShapes<I, A>, AllocError>
    ensures ok { IfOk result (λ v. plain_shapes I.whole v.items
        ≡ shapes_left outcome (plain_points I.whole contour.now)) }
{
    match outcome {
        Outcome::NotSimple => Ok(Vec::new(alloc)),
        Outcome::Empty => Ok(Vec::new(alloc)),
        Outcome::AsGiven => {
            let points = copied(alloc.clone()?, contour)?;
            one_shape(alloc, points)
        }
        Outcome::Reversed => {
            let mut points = copied(alloc.clone()?, contour)?;
            points.reverse();
            one_shape(alloc, points)
        }
    }
}

// The shape of one contour, alone.
fn one_shape<I: IntNumber, A: Allocator + Clone>(
    alloc: A,
    contour: IntContour<I, A>,
) -> Result<IntShapes<I, A>, AllocError>
    ensures ok { IfOk result (λ v. plain_shapes I.whole v.items ≡ (plain_points I.whole contour.items ∷ []) ∷ []) }
{
    let mut shape = Vec::new(alloc.clone()?);
    shape.push(contour)?;
    let mut shapes = Vec::new(alloc);
    shapes.push(shape)?;
    Ok(shapes)
}
