//! The areas of walks, and the walks that reach a minimum area.

ghost use Rattle.std.specs.Prelude.{◌≡◌, All, filter, IfOk};
ghost use Rattle.std.specs.Int.{int_wrap};
ghost use Rattle.overlay_geom.specs.Plane.{points_of};
ghost use Rattle.overlay_geom.specs.Points.{plain_point, cross_of, InRange};
ghost use Rattle.overlay_plane.specs.MinimumArea.{double_area, reaches};
ghost use Rattle.overlay_walk.specs.Steps.{plain_steps, IsLong};
ghost use Rattle.overlay_walk.specs.Walks.{plain_walks};

use crate::step::Step;
use overlay_geom::number::{IntNumber, UIntNumber, WideIntNumber};
use overlay_geom::point::IntPoint;
use overlay_geom::vector::IntVector;
use std::alloc::{AllocError, Allocator};

/// Returns the walks, in order, that have three points or more and reach the minimum area, in squared units of the
/// coordinates. The area is half of the absolute double area, rounded down. The double area is the sum of the cross
/// products of neighbouring points, wrapped to the wide type.
pub fn large_walks<I: IntNumber, A: Allocator>(
    alloc: A,
    walks: Vec<Vec<Step<I>, A>, A>,
    min_output_area: I::WideUInt,
) -> Result<Vec<Vec<Step<I>, A>, A>, AllocError>
    requires { All (All (IsLong I.limit)) (plain_walks I.whole walks.items) }
    ensures ok { IfOk result (λ ws. ws.items ≡ filter
        (λ w. reaches I.Wide.width (I.WideUInt.natural min_output_area) (plain_steps I.whole w.items)) walks.items) }
{
    let mut large = Vec::new(alloc);
    for walk in walks {
        if reaches(&walk, min_output_area) {
            large.push(walk)?;
        }
    }
    Ok(large)
}

/// Returns whether the walk has three points or more and reaches the minimum area. It computes no area where the
/// minimum is zero.
pub(crate) fn reaches<I: IntNumber>(walk: &[Step<I>], min_output_area: I::WideUInt) -> bool
    requires { All (IsLong I.limit) (plain_steps I.whole walk.now) }
    ensures { result ≡ reaches I.Wide.width (I.WideUInt.natural min_output_area) (plain_steps I.whole walk.now) }
{
    walk.len() >= 3
        && (I::WideUInt::zero().is_at_least(min_output_area)
            || I::halved_area(double_area(walk)).is_at_least(min_output_area))
}

// Returns twice the area of the walk, positive where it runs counterclockwise, wrapped to the wide type. It sums from
// the last point on.
fn double_area<I: IntNumber>(walk: &[Step<I>]) -> I::Wide
    requires { All (IsLong I.limit) (plain_steps I.whole walk.now) }
    ensures { I.Wide.whole result
        ≡ int_wrap I.Wide.width (double_area (points_of (plain_steps I.whole walk.now))) }
{
    let mut sum = I::Wide::zero();
    if walk.is_empty() {
        return sum;
    }
    let mut next = walk[0].from;
    let mut i = walk.len();
    while i > 0 {
        i -= 1;
        let point = walk[i].from;
        sum = cross(point, next).wrapping_add(sum);
        next = point;
    }
    sum
}

// Returns the cross product of two points, as vectors from the origin.
fn cross<I: IntNumber>(p: IntPoint<I>, q: IntPoint<I>) -> I::Wide
    requires p { InRange I.limit (plain_point I.whole p) }
    requires q { InRange I.limit (plain_point I.whole q) }
    ensures { I.Wide.whole result ≡ cross_of (plain_point I.whole p) (plain_point I.whole q) }
{
    IntVector::new(p.x, p.y).cross_product(IntVector::new(q.x, q.y))
}
