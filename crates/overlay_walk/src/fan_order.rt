//! The order of fans: that of steps by the points that they leave, and at one point by the rays along them.

ghost use Rattle.std.specs.Prelude.{◌≡◌, ◌<◌, cond, int_lt, pos, length, slice_index_or, false};
ghost use Rattle.std.specs.Prelude.{All, AllPairs, IfOk, OnOk};
ghost use Rattle.std.specs.List.Sorted.{IsPermutation};
ghost use Rattle.std.specs.Ordering.{is_lt, int_cmp};
ghost use Rattle.overlay_geom.specs.Points.{plain_point, InRange};
ghost use Rattle.overlay_plane.specs.Turn.{turn, part_of_turn};
ghost use Rattle.overlay_walk.specs.Nearest.{part_number};
ghost use Rattle.overlay_walk.specs.Places.{step_at};
ghost use Rattle.overlay_walk.specs.Fans.{right_of, is_met_from_right, stands_before, AreFanned};
ghost use Rattle.overlay_walk.specs.Steps.{plain_hand, plain_step, plain_steps, IsLong};

use crate::hand::Hand;
use crate::leftmost::push_places;
use crate::nearest::{Ray, TurnPart};
use crate::step::Step;
use crate::top_first::PlacedSteps;
use overlay_geom::edge::is_before;
use overlay_geom::edge_pair::is_same;
use overlay_geom::number::IntNumber;
use overlay_geom::point::IntPoint;
use overlay_order::sort_runs::sort_neighbours;
use std::alloc::{AllocError, Allocator};
use std::cmp::Ordering;

/// Returns the places of the steps in the order of their fans: by the points that they leave, and at one point in the
/// order in which a ray meets them that turns by the hand from the right.
pub(crate) fn fanned_places<I: IntNumber, A: Allocator>(
    alloc: A,
    steps: &[Step<I>],
    hand: Hand,
) -> Result<Vec<usize, A>, AllocError>
    requires { All (IsLong I.limit) (plain_steps I.whole steps.now) }
    ensures ok { IfOk result (λ v. AreFanned (plain_hand hand) (plain_steps I.whole steps.now) v.items) }
{
    let mut places = Vec::new(alloc);
    push_places(&mut places, steps.len())?;
    sort_fanned(&mut places, steps, hand)?;
    Ok(places)
}

// Sorts places of steps by the order of the steps' fans.
fn sort_fanned<I: IntNumber, A: Allocator>(
    places: &mut Vec<usize, A>,
    steps: &[Step<I>],
    hand: Hand,
) -> Result<(), AllocError>
    requires long { All (IsLong I.limit) (plain_steps I.whole steps.now) }
    requires within { All (λ k. k < length steps.now) places.old.items }
    ensures permutation { IsPermutation places.old.items places.new.items }
    ensures order { OnOk result (AllPairs (λ j k. stands_before (plain_hand hand)
        (step_at (plain_steps I.whole steps.now) k) (step_at (plain_steps I.whole steps.now) j) ≡ false)
        places.new.items) }
{
    let [first, ..] = steps else {
        return Ok(());
    };
    let placed = PlacedSteps {
        steps,
        behind: *first,
    };
    if sort_neighbours(places, |j, k| compare_fanned(&placed, *j, *k, hand)) {
        return Ok(());
    }
    places.sort_by(|j, k| compare_fanned(&placed, *j, *k, hand))?;
    Ok(())
}

// Compares the steps at two places: `Less` exactly where the first stands before the second.
fn compare_fanned<I: IntNumber>(
    placed: &PlacedSteps<'_, I>,
    j: usize,
    k: usize,
    hand: Hand,
) -> Ordering
    ensures { let steps = plain_steps I.whole placed.now.steps.now in
        let behind = plain_step I.whole placed.now.behind in
        is_lt result ≡ stands_before (plain_hand hand) (slice_index_or steps j behind)
        (slice_index_or steps k behind) }
{
    if stands_before(hand, placed.step_at(j), placed.step_at(k)) {
        Ordering::Less
    } else {
        Ordering::Greater
    }
}

/// Returns whether the step s stands before t: it leaves a smaller point, or the same point and a ray that turns by the
/// hand from the right meets it first.
pub(crate) fn stands_before<I: IntNumber>(hand: Hand, s: Step<I>, t: Step<I>) -> bool
    requires s { IsLong I.limit (plain_step I.whole s) }
    requires t { IsLong I.limit (plain_step I.whole t) }
    ensures { result ≡ stands_before (plain_hand hand) (plain_step I.whole s) (plain_step I.whole t) }
{
    if is_same(s.from, t.from) {
        is_met_from_right(hand, s.from, s.to, t.to)
    } else {
        is_before(s.from, t.from)
    }
}

// Returns whether a ray at the node that turns by the hand from the right meets p before q.
fn is_met_from_right<I: IntNumber>(
    hand: Hand,
    node: IntPoint<I>,
    p: IntPoint<I>,
    q: IntPoint<I>,
) -> bool
    requires node { InRange I.limit (plain_point I.whole node) }
    requires p { InRange I.limit (plain_point I.whole p) }
    requires q { InRange I.limit (plain_point I.whole q) }
    ensures { result ≡ is_met_from_right (plain_hand hand) (plain_point I.whole node) (plain_point I.whole p)
        (plain_point I.whole q) }
{
    let part = part_from_right(hand, node, p);
    match part.cmp(&part_from_right(hand, node, q)) {
        Ordering::Less => true,
        Ordering::Equal => Ray {
            node,
            start: p,
            hand,
        }
        .turn(p, q)
        .is_gt(),
        Ordering::Greater => false,
    }
}

// Returns the part of the turn in which such a ray meets p.
fn part_from_right<I: IntNumber>(hand: Hand, node: IntPoint<I>, p: IntPoint<I>) -> TurnPart
    ensures { part_number result ≡ part_of_turn (plain_hand hand) (plain_point I.whole node)
        (right_of (plain_point I.whole node)) (plain_point I.whole p) }
{
    match half_from_right(hand, node, p) {
        Ordering::Less => TurnPart::FirstHalf,
        Ordering::Equal => part_on_level(node, p),
        Ordering::Greater => TurnPart::SecondHalf,
    }
}

// Returns `Less` where such a ray meets p within the first half turn, `Greater` where within the second. The left hand
// turns down from the right.
fn half_from_right<I: IntNumber>(hand: Hand, node: IntPoint<I>, p: IntPoint<I>) -> Ordering
    ensures { result ≡ int_cmp (pos 0) (turn (plain_hand hand) (plain_point I.whole node)
        (right_of (plain_point I.whole node)) (plain_point I.whole p)) }
{
    match hand {
        Hand::Left => p.y.compare(node.y),
        Hand::Right => node.y.compare(p.y),
    }
}

// Returns the part of the turn from the right in which a ray meets p, which is as high as the node.
fn part_on_level<I: IntNumber>(node: IntPoint<I>, p: IntPoint<I>) -> TurnPart
    ensures { part_number result
        ≡ cond (int_lt (plain_point I.whole p).x (plain_point I.whole node).x) 1 3 }
{
    if p.x.compare(node.x).is_lt() {
        TurnPart::Ahead
    } else {
        TurnPart::Again
    }
}
