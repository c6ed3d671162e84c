//! Whether a list of points, or a walk, visits a point twice.

ghost use Rattle.std.specs.Prelude.{◌≡◌, ◌↔◌, ◌<◌, ℕ, true, false, length, IsTrue, IfOk};
ghost use Rattle.overlay_geom.specs.Plane.{points_of, point_eq};
ghost use Rattle.overlay_geom.specs.Points.{plain_points};
ghost use Rattle.overlay_plane.specs.Groups.{HasEachPointOnce};
ghost use Rattle.overlay_walk.specs.Places.{step_at};
ghost use Rattle.overlay_walk.specs.PointsOnce.{all_next_differ};
ghost use Rattle.overlay_walk.specs.Steps.{plain_steps};

use crate::step::Step;
use overlay_geom::edge::compare_points;
use overlay_geom::edge_pair::is_same;
use overlay_geom::flat::copied;
use overlay_geom::number::IntNumber;
use overlay_geom::point::IntPoint;
use overlay_order::sort_points::order_by_points;
use std::alloc::{AllocError, Allocator};

// Greatest number of steps whose pairs are looked at.
const FEW_STEPS: usize = 16;

/// Returns whether no point stands twice in the list.
pub fn has_each_point_once<I: IntNumber, A: Allocator + Clone>(
    alloc: A,
    points: &[IntPoint<I>],
) -> Result<bool, AllocError>
    ensures ok { IfOk result (λ b. IsTrue b ↔ HasEachPointOnce (plain_points I.whole points.now)) }
{
    are_different(copied(alloc, points)?)
}

/// Returns whether no two of the steps leave one point. It takes no memory for few steps.
pub(crate) fn leave_each_point_once<I: IntNumber, A: Allocator + Clone>(
    alloc: A,
    steps: &[Step<I>],
) -> Result<bool, AllocError>
    ensures ok { IfOk result (λ b. IsTrue b ↔ HasEachPointOnce (points_of (plain_steps I.whole steps.now))) }
{
    if steps.len() <= FEW_STEPS {
        return Ok(few_leave_once(steps));
    }
    are_different(points_left(alloc, steps)?)
}

// Returns whether no two of the steps leave one point, by a look at each pair.
fn few_leave_once<I: IntNumber>(steps: &[Step<I>]) -> bool
    ensures { IsTrue result ↔ HasEachPointOnce (points_of (plain_steps I.whole steps.now)) }
{
    for place in 0..steps.len() {
        if is_left_before(steps, place) {
            return false;
        }
    }
    true
}

// Returns whether a step before the one at a place leaves the same point.
fn is_left_before<I: IntNumber>(steps: &[Step<I>], place: usize) -> bool
    requires { place < length steps.now }
    ensures found { result ≡ true → (k : ℕ) × (k < place)
        × ((step_at (plain_steps I.whole steps.now) k).from ≡ (step_at (plain_steps I.whole steps.now) place).from) }
    ensures none { result ≡ false → (k : ℕ) → k < place →
        point_eq (step_at (plain_steps I.whole steps.now) k).from (step_at (plain_steps I.whole steps.now) place).from
        ≡ false }
{
    let point = steps[place].from;
    for k in 0..place {
        if is_same(steps[k].from, point) {
            return true;
        }
    }
    false
}

// Returns the points that the steps leave.
fn points_left<I: IntNumber, A: Allocator>(
    alloc: A,
    steps: &[Step<I>],
) -> Result<Vec<IntPoint<I>, A>, AllocError>
    ensures ok { IfOk result (λ v. plain_points I.whole v.items ≡ points_of (plain_steps I.whole steps.now)) }
{
    let mut points = Vec::with_capacity(alloc, steps.len())?;
    for step in steps {
        points.push_reserved(step.from);
    }
    Ok(points)
}

// Returns whether no point stands twice in the list.
fn are_different<I: IntNumber, A: Allocator + Clone>(
    mut points: Vec<IntPoint<I>, A>,
) -> Result<bool, AllocError>
    ensures ok { IfOk result (λ b. IsTrue b ↔ HasEachPointOnce (plain_points I.whole points.items)) }
{
    order_by_points(&mut points, |p| *p)?;
    points.sort_by(|p, q| compare_points(*p, *q))?;
    Ok(all_next_differ(&points))
}

// Returns whether each point differs from the one before it.
fn all_next_differ<I: IntNumber>(points: &[IntPoint<I>]) -> bool
    ensures { result ≡ all_next_differ (plain_points I.whole points.now) }
{
    if points.is_empty() {
        return true;
    }
    let mut last = points[0];
    for number in 1..points.len() {
        let point = points[number];
        if compare_points(last, point).is_eq() {
            return false;
        }
        last = point;
    }
    true
}
