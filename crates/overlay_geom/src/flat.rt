//! Contours and shapes whose points are held in a single list.

ghost use Rattle.std.specs.Prelude.{◌≡◌, ◌≤◌, IfOk};
ghost use Rattle.overlay_geom.specs.Flat.{range_within, part_in};

pub mod contours;
pub mod shapes;

use std::alloc::{AllocError, Allocator};
use std::ops::Range;

// Returns the range itself if it lies inside a list of length `count`, else an empty range.
fn range_within(range: &Range<usize>, count: usize) -> Range<usize>
    ensures value { result ≡ range_within count range.now }
    ensures begins { result.start ≤ result.end }
    ensures ends { result.end ≤ count }
{
    if range.start <= range.end && range.end <= count {
        range.start..range.end
    } else {
        0..0
    }
}

// Returns the items in the range, or none if the range is not inside the list.
fn part_in<'a, T>(items: &'a [T], range: &Range<usize>) -> &'a [T]
    ensures { result.now ≡ part_in items.now range.now }
{
    let within = range_within(range, items.len());
    &items[within.start..within.end]
}

/// Returns a copy of the items in a new list.
pub fn copied<T: Copy, A: Allocator>(alloc: A, items: &[T]) -> Result<Vec<T, A>, AllocError>
    ensures ok { IfOk result (λ v. v.items ≡ items.now) }
{
    let mut list = Vec::new(alloc);
    list.extend_from_slice(items)?;
    Ok(list)
}

// Returns a copy of the ranges in a new list.
fn copied_ranges<A: Allocator>(
    alloc: A,
    ranges: &[Range<usize>],
) -> Result<Vec<Range<usize>, A>, AllocError>
    ensures ok { IfOk result (λ v. v.items ≡ ranges.now) }
{
    Ok(ranges.to_vec(alloc)?)
}
