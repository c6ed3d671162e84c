//! Points and ranges as plain numbers.

ghost use Rattle.std.specs.Prelude.{◌≡◌, IfOk};
ghost use Rattle.polyover_calls.specs.Arrays.{coordinates_of, ends_of};

use overlay_geom::number::IntNumber;
use overlay_geom::point::IntPoint;
use std::alloc::{AllocError, Allocator};
use std::ops::Range;

/// The coordinates of the points, of each x before y.
pub(crate) fn coordinates_of<I: IntNumber, A: Allocator>(
    alloc: A,
    points: &[IntPoint<I>],
) -> Result<Vec<I, A>, AllocError>
    ensures coordinates { IfOk result (λ v. v.items ≡ coordinates_of points.now) }
{
    if points.len() > usize::MAX / 2 {
        return Err(AllocError);
    }
    let mut coordinates = Vec::with_capacity(alloc, 2 * points.len())?;
    for point in points {
        coordinates.push_reserved(point.x);
        coordinates.push_reserved(point.y);
    }
    Ok(coordinates)
}

/// The end of each range.
pub fn ends_of<A: Allocator>(alloc: A, ranges: &[Range<usize>]) -> Result<Vec<usize, A>, AllocError>
    ensures ends { IfOk result (λ v. v.items ≡ ends_of ranges.now) }
{
    let mut ends = Vec::with_capacity(alloc, ranges.len())?;
    for range in ranges {
        ends.push_reserved(range.end);
    }
    Ok(ends)
}
