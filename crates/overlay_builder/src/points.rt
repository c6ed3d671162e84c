//! The points that an iterator gives.

ghost use Rattle.std.specs.Prelude.{IfOk};
ghost use Rattle.std.specs.Iterator.{Drains, IsFinite};

use overlay_geom::number::IntNumber;
use overlay_geom::point::IntPoint;
use std::alloc::{AllocError, Allocator};

/// Returns the points that the iterator gives, in order.
pub fn gathered<I: IntNumber, A: Allocator, P: Iterator<Item = IntPoint<I>> + Drop>(
    alloc: A,
    iter: P,
) -> Result<Vec<IntPoint<I>, A>, AllocError>
    requires can { P.can_next iter }
    requires ends { IsFinite (P.remaining iter) }
    ensures ok { IfOk result (λ v. Drains P.next_gives iter v.items) }
{
    let mut points = Vec::new(alloc);
    for point in iter {
        points.push(point)?;
    }
    Ok(points)
}
