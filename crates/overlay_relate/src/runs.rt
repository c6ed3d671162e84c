//! Runs of points, sorted by x, that may lie in contours.

ghost use Rattle.std.specs.Prelude.{◌≤◌, [], ◌∷◌};
ghost use Rattle.overlay_geom.specs.Points.{plain_points};
ghost use Rattle.overlay_geom.specs.Paths.{paths_of_shape};
ghost use Rattle.overlay_relate.specs.Runs.{AreByX, IsSpan, IsRunOver, IsHull};

use crate::order::{greater, lesser};
use overlay_geom::number::IntNumber;
use overlay_geom::path::IntContour;
use overlay_geom::point::IntPoint;
use std::alloc::Allocator;

/// From which place on the points stand, and up to which, that do not lie left of the whole contour, or right of
/// it. The points are sorted by x.
pub(crate) fn run_over<I: IntNumber>(
    contour: &[IntPoint<I>],
    points: &[IntPoint<I>],
) -> (usize, usize)
    requires { AreByX (plain_points I.whole points.now) }
    ensures { IsRunOver (plain_points I.whole contour.now ∷ []) (plain_points I.whole points.now)
        result.0 result.1 }
{
    match contour.first() {
        Some(first) => {
            let (low, high) = span_of(first.x, contour);
            let start = points.partition_point(|q| q.x.compare(low).is_lt());
            let end = points.partition_point(|q| !high.compare(q.x).is_lt());
            (start, end)
        }
        None => (0, 0),
    }
}

/// Such a run over all of the contours.
pub(crate) fn run_over_all<I: IntNumber, A: Allocator>(
    contours: &[IntContour<I, A>],
    points: &[IntPoint<I>],
) -> (usize, usize)
    requires { AreByX (plain_points I.whole points.now) }
    ensures { IsRunOver (paths_of_shape I.whole contours.now) (plain_points I.whole points.now)
        result.0 result.1 }
{
    let mut run = (0, 0);
    for contour in contours {
        run = hull(run, run_over(contour, points));
    }
    run
}

/// From the first place of two runs up to the last one. A run without a place is left out.
fn hull(run: (usize, usize), other: (usize, usize)) -> (usize, usize)
    requires one { run.0 ≤ run.1 }
    requires other { other.0 ≤ other.1 }
    ensures { IsHull run.0 run.1 other.0 other.1 result.0 result.1 }
{
    if run.0 == run.1 {
        return other;
    }
    if other.0 == other.1 {
        return run;
    }
    let start = if run.0 < other.0 { run.0 } else { other.0 };
    let end = if run.1 < other.1 { other.1 } else { run.1 };
    (start, end)
}

/// The least and the greatest x-coordinate of points, where one has x.
fn span_of<I: IntNumber>(x: I, points: &[IntPoint<I>]) -> (I, I)
    ensures { IsSpan (plain_points I.whole points.now) (I.whole result.0) (I.whole result.1) }
{
    let mut low = x;
    let mut high = x;
    for p in points {
        low = lesser(low, p.x);
        high = greater(high, p.x);
    }
    (low, high)
}
