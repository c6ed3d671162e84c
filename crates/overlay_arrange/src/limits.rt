//! Lengths of growing lists from which on members that repeat are joined or dropped.

ghost use Rattle.std.specs.Prelude.{◌+◌, ◌^◌, ◌<◌};
ghost use Rattle.overlay_order.specs.Parting.{MayPart};

use overlay_order::count::EdgeCount;

/// Least length of a list from which on members that repeat are joined or dropped.
pub(crate) const LEAST_LENGTH: usize = 1048576;
// Number of members for each edge from which on those that repeat are joined or dropped for the first time.
const MEMBERS_OF_AN_EDGE: usize = 64;
// Number of pairs of overlapping edges for each edge from which on they are parted.
const OVERLAPS_OF_AN_EDGE: usize = 4;

/// Returns the length, for a list made of `edges` edges, from which on members that repeat are joined or dropped for
/// the first time.
pub(crate) fn first_limit(edges: usize) -> usize {
    edges.saturating_mul(MEMBERS_OF_AN_EDGE).max(LEAST_LENGTH)
}

/// Returns the number of pairs of overlapping edges from which on `edges` edges are parted. It is out of reach where
/// edges may not be parted.
pub(crate) fn most_overlaps<C: EdgeCount>(edges: usize) -> usize
    ensures { result + 1 < 2 ^ 64 → MayPart C.merges C.splits C.reverses }
{
    if C::may_part() {
        edges.saturating_mul(OVERLAPS_OF_AN_EDGE)
    } else {
        usize::MAX
    }
}

/// Returns the length from which on members that repeat are joined or dropped again, once `left` of `count` are left. A
/// list with few of them may grow `growth` times as long first. The length is `least` or more where there are many.
pub(crate) fn next_limit(count: usize, left: usize, least: usize, growth: usize) -> usize {
    if left > count / 2 {
        left.saturating_mul(growth)
    } else {
        left.saturating_mul(2).max(least)
    }
}
