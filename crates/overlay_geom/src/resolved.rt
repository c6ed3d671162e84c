//! Tests whether a contour is resolved.

ghost use Rattle.std.specs.Prelude.{◌↔◌, ◌++◌, [], ◌∷◌, All, IsTrue};
ghost use Rattle.overlay_geom.specs.Points.{plain_point, plain_points, InRange, AllInRange};
ghost use Rattle.overlay_geom.specs.Resolved.{plain_edge, IsLongEdge};
ghost use Rattle.overlay_geom.specs.Resolved.{edges_between, edges_through, AreApart, IsResolved};
ghost use Rattle.overlay_geom.specs.Settled.{MeetInEnds};

use crate::edge::{IntEdge, edge_between};
use crate::edge_pair::meet_in_ends;
use crate::number::IntNumber;
use crate::point::IntPoint;

/// Returns whether each point that two different steps of a contour share is an end of both. For no points it returns
/// true. The points are in range. It takes no memory, and tests all pairs of steps.
pub fn is_resolved<I: IntNumber>(points: &[IntPoint<I>]) -> bool
    requires { AllInRange I.limit (plain_points I.whole points.now) }
    ensures { IsTrue result ↔ IsResolved (plain_points I.whole points.now) }
{
    match points.first() {
        Some(first) => is_round_resolved(*first, points),
        None => true,
    }
}

// Returns whether the steps from `first` through the contour's points and back to it meet in ends alone.
fn is_round_resolved<I: IntNumber>(first: IntPoint<I>, contour: &[IntPoint<I>]) -> bool
    requires first { InRange I.limit (plain_point I.whole first) }
    requires contour { AllInRange I.limit (plain_points I.whole contour.now) }
    ensures { IsTrue result ↔ AreApart (edges_through (plain_point I.whole first)
        (plain_points I.whole contour.now ++ plain_point I.whole first ∷ [])) }
{
    let mut from = first;
    for (i, to) in contour.iter().enumerate() {
        if !step_meets_later(from, *to, &contour[i + 1..], first) {
            return false;
        }
        from = *to;
    }
    true
}

// Returns whether the step from `from` to `to`, if the points differ, meets the later steps in ends alone. Those lead
// from `to` through the later points to `last`.
fn step_meets_later<I: IntNumber>(
    from: IntPoint<I>,
    to: IntPoint<I>,
    later: &[IntPoint<I>],
    last: IntPoint<I>,
) -> bool
    requires from { InRange I.limit (plain_point I.whole from) }
    requires to { InRange I.limit (plain_point I.whole to) }
    requires later { AllInRange I.limit (plain_points I.whole later.now) }
    requires last { InRange I.limit (plain_point I.whole last) }
    ensures { IsTrue result ↔ All (λ e. All (MeetInEnds e) (edges_through (plain_point I.whole to)
        (plain_points I.whole later.now ++ plain_point I.whole last ∷ [])))
        (edges_between (plain_point I.whole from) (plain_point I.whole to)) }
{
    match edge_between(from, to) {
        Some(e) => meets_steps(e, to, later, last),
        None => true,
    }
}

// Returns whether the edge meets the steps from `start` through the points to `last` in ends alone.
fn meets_steps<I: IntNumber>(
    e: IntEdge<I>,
    start: IntPoint<I>,
    points: &[IntPoint<I>],
    last: IntPoint<I>,
) -> bool
    requires edge { IsLongEdge I.limit (plain_edge I.whole e) }
    requires start { InRange I.limit (plain_point I.whole start) }
    requires points { AllInRange I.limit (plain_points I.whole points.now) }
    requires last { InRange I.limit (plain_point I.whole last) }
    ensures { IsTrue result ↔ All (MeetInEnds (plain_edge I.whole e)) (edges_through (plain_point I.whole start)
        (plain_points I.whole points.now ++ plain_point I.whole last ∷ [])) }
{
    let mut from = start;
    for to in points {
        if !meets_step(e, from, *to) {
            return false;
        }
        from = *to;
    }
    meets_step(e, from, last)
}

// Returns whether the edge meets the step between two points in ends alone. It is true where the points are equal.
fn meets_step<I: IntNumber>(e: IntEdge<I>, from: IntPoint<I>, to: IntPoint<I>) -> bool
    requires edge { IsLongEdge I.limit (plain_edge I.whole e) }
    requires from { InRange I.limit (plain_point I.whole from) }
    requires to { InRange I.limit (plain_point I.whole to) }
    ensures { IsTrue result ↔ All (MeetInEnds (plain_edge I.whole e))
        (edges_between (plain_point I.whole from) (plain_point I.whole to)) }
{
    match edge_between(from, to) {
        Some(f) => meet_in_ends(e, f),
        None => true,
    }
}
