//! Contours that lie over one another.

use overlay_geom::number::IntNumber;
use overlay_geom::path::IntContour;
use overlay_geom::point::IntPoint;
use overlay_pairs::extents::is_less;
use std::alloc::Allocator;

// Least number of contours that lie deep, all or on average over a point.
const DEEP: usize = 64;

// Greatest number of points that are looked at.
const SAMPLES: usize = 4;

/// Returns whether 64 contours or more, on average, have points at the x-coordinate of a point, as a few points tell.
/// Where fewer have, points are located contour by contour in less time.
pub(crate) fn lie_deep<I: IntNumber, A: Allocator>(
    contours: &[IntContour<I, A>],
    points: &[IntPoint<I>],
) -> bool {
    if contours.len() < DEEP {
        return false;
    }
    let step = points.len() / SAMPLES + 1;
    let mut count = 0_usize;
    for (place, p) in points.iter().enumerate() {
        if place % step == 0 {
            count = count.saturating_add(depth_at(contours, p.x));
        }
    }
    count >= DEEP * SAMPLES
}

// Returns the number of contours that have points at the x-coordinate.
fn depth_at<I: IntNumber, A: Allocator>(contours: &[IntContour<I, A>], x: I) -> usize {
    let mut count = 0_usize;
    for contour in contours {
        if spans(contour, x) {
            count = count.saturating_add(1);
        }
    }
    count
}

// Returns whether the contour has points at the x-coordinate.
fn spans<I: IntNumber>(contour: &[IntPoint<I>], x: I) -> bool {
    let mut from = false;
    let mut to = false;
    for p in contour {
        from = from || !is_less(x, p.x);
        to = to || !is_less(p.x, x);
    }
    from && to
}
