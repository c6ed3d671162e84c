//! Edges that a sweep from left to right has passed, and that may meet the next one.

ghost use Rattle.std.specs.Prelude.{◌≡◌, not, int_lt, filter};

use overlay_geom::number::IntNumber;
use std::alloc::Allocator;

/// An edge that the sweep has passed.
#[derive(Clone, Copy)]
pub struct PassedEdge<I> {
    /// The place of the edge.
    pub place: usize,
    /// The x-coordinate of its larger end.
    pub right: I,
}

/// Drops the edges that end left of x.
pub(crate) fn drop_left<I: IntNumber, A: Allocator>(passed: &mut Vec<PassedEdge<I>, A>, x: I)
    ensures { passed.new.items ≡ filter (λ p. not (int_lt (I.whole p.right) (I.whole x))) passed.old.items }
{
    passed.retain(|p| !p.right.compare(x).is_lt());
}
