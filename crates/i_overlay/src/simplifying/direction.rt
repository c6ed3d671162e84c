//! The direction in which a simple contour runs.

ghost use Rattle.std.specs.Prelude.{◌<◌, ◌≤◌, length, get_or};
ghost use Rattle.overlay_geom.specs.Points.{plain_points, AllInRange};
ghost use Rattle.overlay_plane.specs.Groups.{HasEachPointOnce};
ghost use Rattle.overlay_plane.specs.Turn.{no_step};
ghost use Rattle.i_overlay.specs.Points.{IsLeast};
ghost use Rattle.i_overlay.specs.Simple.{RunsIn};

use overlay_geom::edge::compare_points;
use overlay_geom::number::{IntNumber, WideIntNumber};
use overlay_geom::options::ContourDirection;
use overlay_geom::point::IntPoint;
use overlay_geom::vector::cross_at;

/// The direction in which a contour of different points runs, read at its leftmost lowest point: clockwise
/// where it arrives there along its lowest edge. The points are in the coordinate range, and two or more.
pub(crate) fn direction_of<I: IntNumber>(points: &[IntPoint<I>]) -> ContourDirection
    requires in_range { AllInRange I.limit (plain_points I.whole points.now) }
    requires once { HasEachPointOnce (plain_points I.whole points.now) }
    requires some { 2 ≤ length points.now }
    ensures { RunsIn result (plain_points I.whole points.now) }
{
    let last = points.len() - 1;
    let place = leftmost_lowest(points);
    let before = if place == 0 { last } else { place - 1 };
    let after = if place == last { 0 } else { place + 1 };
    if cross_at(points[place], points[after], points[before])
        .sign()
        .is_lt()
    {
        ContourDirection::Clockwise
    } else {
        ContourDirection::CounterClockwise
    }
}

// The place of the smallest point, by x and then by y.
fn leftmost_lowest<I: IntNumber>(points: &[IntPoint<I>]) -> usize
    requires { 0 < length points.now }
    ensures within { result < length points.now }
    ensures least { IsLeast (plain_points I.whole points.now)
        (get_or (plain_points I.whole points.now) result no_step.from) }
{
    let mut place = 0;
    for number in 1..points.len() {
        if compare_points(points[number], points[place]).is_lt() {
            place = number;
        }
    }
    place
}
