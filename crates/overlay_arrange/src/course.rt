//! Rough heights of edges. They tell where to look first: no answer depends on them.

use overlay_geom::number::IntNumber;
use overlay_geom::point::IntPoint;
use overlay_order::count::EdgeCount;
use overlay_order::edge::CountedEdge;
use overlay_pairs::extents::is_less;

// Number of bits of a slope behind its point. Lengths are cut to as many bits.
const FINE: u32 = 32;

/// The rough course of an edge.
#[derive(Clone, Copy)]
pub(crate) struct Course<I> {
    // The left end.
    left: IntPoint<I>,
    // Whether the edge rises.
    rises: bool,
    // Number of low bits that lengths lose.
    lost: u32,
    // The slope, up or down, times 2 to the power of `FINE`.
    slope: u64,
    // Height at which points can lie beside the rough height although the edge meets their pixels.
    margin: u64,
}

/// Returns the rough course of the edge.
pub(crate) fn course_of<I: IntNumber, C: EdgeCount>(e: &CountedEdge<I, C>) -> Course<I> {
    let width = e.b.x.distance(e.a.x);
    let height = e.b.y.distance(e.a.y);
    let lost = FINE.saturating_sub((width | height).leading_zeros());
    let slope = height.wrapping_shr(lost).wrapping_shl(FINE) / width.wrapping_shr(lost).max(1);
    Course {
        left: e.a,
        rises: is_less(e.a.y, e.b.y),
        lost,
        slope,
        margin: slope.wrapping_shr(FINE).wrapping_add(2).wrapping_shl(lost),
    }
}

impl<I: IntNumber> Course<I> {
    /// Returns roughly how high over `floor` the points lie at least whose pixels the edge meets at x.
    pub(crate) fn least_at(&self, x: I, floor: I) -> u64 {
        self.height_at(x, floor).saturating_sub(self.margin)
    }

    /// Returns roughly how high over `floor` the points lie at most whose pixels the edge meets at x.
    pub(crate) fn most_at(&self, x: I, floor: I) -> u64 {
        self.height_at(x, floor).saturating_add(self.margin)
    }

    // Returns roughly the height of the edge over `floor` at x, or 0 where it lies below.
    fn height_at(&self, x: I, floor: I) -> u64 {
        let way = x.distance(self.left.x).wrapping_shr(self.lost);
        let change = way
            .wrapping_mul(self.slope)
            .wrapping_shr(FINE)
            .wrapping_shl(self.lost);
        let base = self.left.y.distance(floor);
        match (self.rises, is_less(self.left.y, floor)) {
            (true, true) => change.saturating_sub(base),
            (true, false) => base.saturating_add(change),
            (false, true) => 0,
            (false, false) => base.saturating_sub(change),
        }
    }
}
