//! Fans: the steps that leave each node, in the order in which a ray meets them. Where many leave one, the next step is
//! found by halves.

ghost use Rattle.std.specs.Prelude.{◌≡◌, ◌⊎◌, ◌+◌, ◌<◌, ℕ, Bool, List, true, false, not};
ghost use Rattle.std.specs.Prelude.{length, slice_index_or, All, IfOk};
ghost use Rattle.std.specs.List.Sorted.{IsPartitionPoint};
ghost use Rattle.overlay_geom.specs.Plane.{point_lt};
ghost use Rattle.overlay_geom.specs.Points.{plain_point};
ghost use Rattle.overlay_walk.specs.Places.{IsNextPlace};
ghost use Rattle.overlay_walk.specs.Fans.{stands_before, AreFanned, AreTaken, AreTakenAhead, StopsAt};
ghost use Rattle.overlay_walk.specs.Fans.{IsFirstIfLeaving, AreFansBy, AreFans};
ghost use Rattle.overlay_walk.specs.Steps.{plain_hand, plain_step, plain_steps, IsByFrom, IsLong};

use crate::fan_order::{fanned_places, stands_before};
use crate::hand::Hand;
use crate::next::place_of_next;
use crate::open_places::is_open;
use crate::step::Step;
use crate::top_first::PlacedSteps;
use overlay_geom::edge::is_before;
use overlay_geom::edge_pair::is_same;
use overlay_geom::number::IntNumber;
use overlay_geom::point::IntPoint;
use std::alloc::{AllocError, Allocator};

// Greatest number of steps that leave one point and are few.
const FEW_STEPS: usize = 16;
// Number of blocks that can be sorted in the time that 1 in the sum of `sorting_pays` takes.
const BLOCKS_SORTED: usize = 4;

/// The places of all steps, node by node and fan by fan, with notes of those taken; or no place.
#[derive(Drop)]
pub(crate) struct Fans<A: Allocator> {
    /// The places.
    pub(crate) places: Vec<usize, A>,
    /// For each index an index: the places from the first up to the second are known to be taken.
    pub(crate) ahead: Vec<usize, A>,
}

/// The fans by either hand.
#[derive(Drop)]
pub(crate) struct FansByHand<A: Allocator> {
    /// By the left hand.
    pub(crate) by_left: Fans<A>,
    /// By the right hand.
    pub(crate) by_right: Fans<A>,
}

/// Makes the fans of the steps. They are without places where sorting these would not pay.
pub(crate) fn fans_of<I: IntNumber, A: Allocator + Clone>(
    alloc: A,
    steps: &[Step<I>],
) -> Result<FansByHand<A>, AllocError>
    requires { All (IsLong I.limit) (plain_steps I.whole steps.now) }
    ensures ok { IfOk result (λ r. (marks : List Bool) → AreFans (plain_steps I.whole steps.now) marks r) }
{
    let by_left = fans_by(alloc.clone()?, steps, Hand::Left)?;
    let by_right = fans_by(alloc, steps, Hand::Right)?;
    Ok(FansByHand { by_left, by_right })
}

// Makes the fans of the steps by a hand.
fn fans_by<I: IntNumber, A: Allocator + Clone>(
    alloc: A,
    steps: &[Step<I>],
    hand: Hand,
) -> Result<Fans<A>, AllocError>
    requires { All (IsLong I.limit) (plain_steps I.whole steps.now) }
    ensures ok { IfOk result (λ r.
        (marks : List Bool) → AreFansBy (plain_hand hand) (plain_steps I.whole steps.now) marks r) }
{
    let places = places_if_sorting_pays(alloc.clone()?, steps, hand)?;
    let mut ahead = Vec::new(alloc);
    ahead.resize(places.len(), 0)?;
    Ok(Fans { places, ahead })
}

// Returns the places of the steps in the order of their fans by the hand, or none where sorting them would not pay.
fn places_if_sorting_pays<I: IntNumber, A: Allocator>(
    alloc: A,
    steps: &[Step<I>],
    hand: Hand,
) -> Result<Vec<usize, A>, AllocError>
    requires { All (IsLong I.limit) (plain_steps I.whole steps.now) }
    ensures ok { IfOk result (λ v.
        0 < length v.items → AreFanned (plain_hand hand) (plain_steps I.whole steps.now) v.items) }
{
    if !sorting_pays(steps) {
        return Ok(Vec::new(alloc));
    }
    let places = fanned_places(alloc, steps, hand)?;
    Ok(places)
}

// Returns whether sorting the places of all steps takes less time than it saves. Without their order a walk tests all
// steps that leave a point each time that it comes there. That time grows as the square of their number does, and so
// does the sum: the blocks of steps that leave one point count 1, 2, 3 and so on.
fn sorting_pays<I: IntNumber>(steps: &[Step<I>]) -> bool {
    let blocks = steps.len() / FEW_STEPS;
    let mut in_row: usize = 0;
    let mut sum: usize = 0;
    for block in 0..blocks {
        in_row = if many_leave_from(steps, block.saturating_mul(FEW_STEPS)) {
            in_row.saturating_add(1)
        } else {
            0
        };
        sum = sum.saturating_add(in_row);
    }
    0 < sum && blocks <= sum.saturating_mul(BLOCKS_SORTED)
}

// Returns whether many steps leave the point of the step at a place, from there on.
fn many_leave_from<I: IntNumber>(steps: &[Step<I>], place: usize) -> bool {
    match steps.get(place) {
        Some(step) => many_leave(steps, place, step.from),
        None => false,
    }
}

// Returns whether many steps leave p from a place on.
fn many_leave<I: IntNumber>(steps: &[Step<I>], place: usize, p: IntPoint<I>) -> bool {
    match steps.get(place.saturating_add(FEW_STEPS)) {
        Some(step) => is_same(step.from, p),
        None => false,
    }
}

/// Returns the place of the next step at the end of a step, as [`place_of_next`] does. Where many steps leave that end,
/// it is found in the fan by the hand.
pub(crate) fn place_by_hand<I: IntNumber, A: Allocator>(
    steps: &[Step<I>],
    taken: &[bool],
    fans: &mut FansByHand<A>,
    near: usize,
    step: Step<I>,
    hand: Hand,
) -> Option<usize>
    requires marks { length taken.now ≡ length steps.now }
    requires by_start { IsByFrom (plain_steps I.whole steps.now) }
    requires long { All (IsLong I.limit) (plain_steps I.whole steps.now) }
    requires step { IsLong I.limit (plain_step I.whole step) }
    requires fans { AreFans (plain_steps I.whole steps.now) taken.now fans.old }
    ensures next { IsNextPlace (plain_steps I.whole steps.now) taken.now (plain_hand hand) (plain_step I.whole step)
        result }
    ensures fans { AreFans (plain_steps I.whole steps.now) taken.now fans.new }
{
    match hand {
        Hand::Left => place_by_fans(steps, taken, &mut fans.by_left, near, step, hand),
        Hand::Right => place_by_fans(steps, taken, &mut fans.by_right, near, step, hand),
    }
}

// Returns that place, found in the fan where there are fans and many steps leave the end of the step.
fn place_by_fans<I: IntNumber, A: Allocator>(
    steps: &[Step<I>],
    taken: &[bool],
    fans: &mut Fans<A>,
    near: usize,
    step: Step<I>,
    hand: Hand,
) -> Option<usize>
    requires marks { length taken.now ≡ length steps.now }
    requires by_start { IsByFrom (plain_steps I.whole steps.now) }
    requires long { All (IsLong I.limit) (plain_steps I.whole steps.now) }
    requires step { IsLong I.limit (plain_step I.whole step) }
    requires fans { AreFansBy (plain_hand hand) (plain_steps I.whole steps.now) taken.now fans.old }
    ensures next { IsNextPlace (plain_steps I.whole steps.now) taken.now (plain_hand hand) (plain_step I.whole step)
        result }
    ensures fans { AreFansBy (plain_hand hand) (plain_steps I.whole steps.now) taken.now fans.new }
{
    if is_found_in_fans(fans, steps, near, step.to) {
        place_in_fans(steps, taken, &fans.places, &mut fans.ahead, step, hand)
    } else {
        place_of_next(steps, taken, near, step, hand)
    }
}

// Returns whether the fans have places and many steps leave p, from the place `near` on.
fn is_found_in_fans<I: IntNumber, A: Allocator>(
    fans: &Fans<A>,
    steps: &[Step<I>],
    near: usize,
    p: IntPoint<I>,
) -> bool
    ensures { result ≡ true → 0 < length fans.now.places.items }
{
    !fans.places.is_empty() && many_leave(steps, near, p)
}

// Returns that place, by the places in the order of their fans. It is the first open one behind the way back along the
// step, or else the first one in the fan.
fn place_in_fans<I: IntNumber>(
    steps: &[Step<I>],
    taken: &[bool],
    fanned: &[usize],
    ahead: &mut [usize],
    step: Step<I>,
    hand: Hand,
) -> Option<usize>
    requires marks { length taken.now ≡ length steps.now }
    requires long { All (IsLong I.limit) (plain_steps I.whole steps.now) }
    requires step { IsLong I.limit (plain_step I.whole step) }
    requires placed { AreFanned (plain_hand hand) (plain_steps I.whole steps.now) fanned.now }
    requires each { length ahead.old ≡ length fanned.now }
    requires noted { AreTakenAhead taken.now fanned.now ahead.old }
    ensures next { IsNextPlace (plain_steps I.whole steps.now) taken.now (plain_hand hand) (plain_step I.whole step)
        result }
    ensures each { length ahead.new ≡ length fanned.now }
    ensures noted { AreTakenAhead taken.now fanned.now ahead.new }
{
    let way_back = Step {
        from: step.to,
        to: step.from,
        edge: step.edge,
    };
    let behind = count_up_to(steps, fanned, way_back, hand);
    if let Some(place) = first_leaving(steps, taken, fanned, ahead, behind, step.to) {
        return Some(place);
    }
    let low = count_below(steps, fanned, way_back);
    first_leaving(steps, taken, fanned, ahead, low, step.to)
}

// Returns the number of places whose steps do not stand behind the way back, which come first.
fn count_up_to<I: IntNumber>(
    steps: &[Step<I>],
    fanned: &[usize],
    way_back: Step<I>,
    hand: Hand,
) -> usize
    requires long { All (IsLong I.limit) (plain_steps I.whole steps.now) }
    requires way_back { IsLong I.limit (plain_step I.whole way_back) }
    requires placed { AreFanned (plain_hand hand) (plain_steps I.whole steps.now) fanned.now }
    ensures { let steps = plain_steps I.whole steps.now in
        let way_back = plain_step I.whole way_back in
        let is_behind = λ (k : ℕ). stands_before (plain_hand hand) way_back (slice_index_or steps k way_back) in
        IsPartitionPoint (λ k. is_behind k ≡ false) (λ k. is_behind k ≡ true) fanned.now result }
{
    let placed = PlacedSteps {
        steps,
        behind: way_back,
    };
    fanned.partition_point(|k| is_up_to(&placed, *k, hand))
}

// Returns whether the step at a place does not stand behind the one that stands for places behind all.
fn is_up_to<I: IntNumber>(placed: &PlacedSteps<'_, I>, place: usize, hand: Hand) -> bool
    ensures { let steps = plain_steps I.whole placed.now.steps.now in
        let behind = plain_step I.whole placed.now.behind in
        result ≡ not (stands_before (plain_hand hand) behind (slice_index_or steps place behind)) }
{
    !stands_before(hand, placed.behind, placed.step_at(place))
}

// Returns the number of places whose steps leave a point below the start of the way back, which come first.
fn count_below<I: IntNumber>(steps: &[Step<I>], fanned: &[usize], way_back: Step<I>) -> usize
    requires long { All (IsLong I.limit) (plain_steps I.whole steps.now) }
    requires way_back { IsLong I.limit (plain_step I.whole way_back) }
    ensures { let steps = plain_steps I.whole steps.now in
        let way_back = plain_step I.whole way_back in
        let is_below = λ (k : ℕ). point_lt (slice_index_or steps k way_back).from way_back.from in
        (hand : Hand) → AreFanned (plain_hand hand) steps fanned.now
        → IsPartitionPoint (λ k. is_below k ≡ true) (λ k. is_below k ≡ false) fanned.now result }
{
    let placed = PlacedSteps {
        steps,
        behind: way_back,
    };
    fanned.partition_point(|k| is_before(placed.step_at(*k).from, way_back.from))
}

// Returns the first open place from an index on, if its step leaves p.
fn first_leaving<I: IntNumber>(
    steps: &[Step<I>],
    taken: &[bool],
    fanned: &[usize],
    ahead: &mut [usize],
    low: usize,
    p: IntPoint<I>,
) -> Option<usize>
    requires marks { length taken.now ≡ length steps.now }
    requires within { All (λ k. k < length steps.now) fanned.now }
    requires each { length ahead.old ≡ length fanned.now }
    requires noted { AreTakenAhead taken.now fanned.now ahead.old }
    ensures first { IsFirstIfLeaving (plain_steps I.whole steps.now) taken.now fanned.now low (plain_point I.whole p)
        result }
    ensures each { length ahead.new ≡ length fanned.now }
    ensures noted { AreTakenAhead taken.now fanned.now ahead.new }
{
    let at = first_open_from(taken, fanned, ahead, low);
    note_ahead(ahead, low, at);
    if at < fanned.len() {
        let place = fanned[at];
        if is_same(steps[place].from, p) {
            return Some(place);
        }
    }
    None
}

// Returns the index of the first open place from an index on, or an index behind all.
fn first_open_from(taken: &[bool], fanned: &[usize], ahead: &[usize], low: usize) -> usize
    requires within { All (λ k. k < length taken.now) fanned.now }
    requires each { length ahead.now ≡ length fanned.now }
    requires noted { AreTakenAhead taken.now fanned.now ahead.now }
    ensures { StopsAt taken.now fanned.now low result }
{
    let mut at = low;
    while at < fanned.len() && !is_open(taken, fanned[at]) {
        at = index_ahead(ahead, at);
    }
    at
}

// Returns the index that is noted for an index, if it is greater, or else the next index.
fn index_ahead(ahead: &[usize], at: usize) -> usize
    requires { at < length ahead.now }
    ensures further { at < result }
    ensures is { (result ≡ at + 1) ⊎ (result ≡ slice_index_or ahead.now at 0) }
{
    let noted = ahead[at];
    if noted > at { noted } else { at + 1 }
}

// Notes, for `low` and the indices that lead on from it, that the places up to `at` are taken.
fn note_ahead(ahead: &mut [usize], low: usize, at: usize)
    ensures each { length ahead.new ≡ length ahead.old }
    ensures noted { (marks : List Bool) (fanned : List ℕ) → AreTaken marks fanned low at
        → AreTakenAhead marks fanned ahead.old → AreTakenAhead marks fanned ahead.new }
{
    let mut index = low;
    while index < at && index < ahead.len() {
        let next = index_ahead(ahead, index);
        ahead[index] = at;
        index = next;
    }
}
