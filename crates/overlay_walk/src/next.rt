//! The next step at the end of a step, among steps sorted by the points that they leave.

ghost use Rattle.std.specs.Prelude.{◌≡◌, ◌<◌, ◌≤◌, true, false, length, All};
ghost use Rattle.std.specs.List.Sorted.{IsPartitionPoint};
ghost use Rattle.overlay_geom.specs.Plane.{point_lt};
ghost use Rattle.overlay_geom.specs.Points.{plain_point};
ghost use Rattle.overlay_walk.specs.Places.{step_at, IsNextPlace};
ghost use Rattle.overlay_walk.specs.Steps.{plain_hand, plain_step, plain_steps};
ghost use Rattle.overlay_walk.specs.Steps.{IsByFrom, IsLong};

use crate::hand::Hand;
use crate::nearest::{NearestVector, Ray};
use crate::open_places::is_open;
use crate::step::Step;
use overlay_geom::edge::is_before;
use overlay_geom::edge_pair::is_same;
use overlay_geom::number::IntNumber;
use overlay_geom::point::IntPoint;

/// Returns the place of the next step at the end of a step, among the steps that leave that end and are not taken. A
/// ray that turns by the hand from the way back along the step meets it first. The result is None where there is none.
/// The steps that leave that end are looked for at the place `near` first.
pub(crate) fn place_of_next<I: IntNumber>(
    steps: &[Step<I>],
    taken: &[bool],
    near: usize,
    step: Step<I>,
    hand: Hand,
) -> Option<usize>
    requires marks { length taken.now ≡ length steps.now }
    requires by_start { IsByFrom (plain_steps I.whole steps.now) }
    requires long { All (IsLong I.limit) (plain_steps I.whole steps.now) }
    requires step { IsLong I.limit (plain_step I.whole step) }
    ensures { IsNextPlace (plain_steps I.whole steps.now) taken.now (plain_hand hand) (plain_step I.whole step) result }
{
    let low = count_leaving_below(steps, near, step.to);
    let mut nearest = NearestVector::new(Ray {
        node: step.to,
        start: step.from,
        hand,
    });
    let mut found = None;
    for i in low..steps.len() {
        let next = steps[i];
        if !is_same(next.from, step.to) {
            return found;
        }
        if is_open(taken, i) && nearest.add(next.to) {
            found = Some(i);
        }
    }
    found
}

/// Returns the number of steps that leave a point below p, which come first. It tries the place `near`.
pub fn count_leaving_below<I: IntNumber>(steps: &[Step<I>], near: usize, p: IntPoint<I>) -> usize
    requires { IsByFrom (plain_steps I.whole steps.now) }
    ensures within { result ≤ length steps.now }
    ensures parted { IsPartitionPoint (λ s. point_lt (plain_step I.whole s).from (plain_point I.whole p) ≡ true)
        (λ s. point_lt (plain_step I.whole s).from (plain_point I.whole p) ≡ false) steps.now result }
{
    if is_parted_at(steps, near, p) {
        near
    } else {
        steps.partition_point(|s| is_before(s.from, p))
    }
}

/// Returns whether a step stands at the place that is the first not to leave a point below p.
fn is_parted_at<I: IntNumber>(steps: &[Step<I>], place: usize, p: IntPoint<I>) -> bool
    requires { IsByFrom (plain_steps I.whole steps.now) }
    ensures within { result ≡ true → place < length steps.now }
    ensures parted { result ≡ true →
        IsPartitionPoint (λ s. point_lt (plain_step I.whole s).from (plain_point I.whole p) ≡ true)
        (λ s. point_lt (plain_step I.whole s).from (plain_point I.whole p) ≡ false) steps.now place }
{
    if place >= steps.len() || leaves_below(steps, place, p) {
        return false;
    }
    place == 0 || leaves_below(steps, place - 1, p)
}

/// Returns whether the step at a place leaves a point below p.
pub(crate) fn leaves_below<I: IntNumber>(steps: &[Step<I>], place: usize, p: IntPoint<I>) -> bool
    requires { place < length steps.now }
    ensures { result ≡ point_lt (step_at (plain_steps I.whole steps.now) place).from (plain_point I.whole p) }
{
    is_before(steps[place].from, p)
}
