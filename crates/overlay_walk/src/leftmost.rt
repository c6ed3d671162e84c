//! The places of steps by the starts of their edges, and the first of them that is not taken.

ghost use Rattle.std.specs.Prelude.{◌≡◌, ◌<◌, [], true, length, slice_index_or, nat_lt, filter, All};
ghost use Rattle.std.specs.Prelude.{IfOk, OnOk, IsTrue};
ghost use Rattle.overlay_walk.specs.Places.{is_open, ArePassed, ArePlacesTopFirst, HasBelow, HasPlaces};
ghost use Rattle.overlay_walk.specs.Steps.{plain_steps, IsLong};

use crate::open_places::is_open;
use crate::step::Step;
use crate::top_first::sort_top_first;
use overlay_geom::number::IntNumber;
use std::alloc::{AllocError, Allocator};

// Greatest number of edges for each step up to which their numbers are counted.
const MOST_EDGES_A_STEP: usize = 64;

/// Returns the places of the steps, sorted by the starts of their edges: by the smaller ends, and from one point by
/// slope, highest first.
pub(crate) fn places_top_first<I: IntNumber, A: Allocator>(
    alloc: A,
    steps: &[Step<I>],
) -> Result<Vec<usize, A>, AllocError>
    requires { All (IsLong I.limit) (plain_steps I.whole steps.now) }
    ensures ok { IfOk result (λ v. ArePlacesTopFirst (plain_steps I.whole steps.now) v.items) }
{
    let mut places = all_places(alloc, steps)?;
    sort_top_first(&mut places, steps)?;
    Ok(places)
}

// Returns the places of all steps: in the order of the numbers of their edges where these differ, unless the
// arrangement has many more edges than there are steps.
fn all_places<I: IntNumber, A: Allocator>(
    alloc: A,
    steps: &[Step<I>],
) -> Result<Vec<usize, A>, AllocError>
    ensures ok { IfOk result (λ v. HasPlaces (length steps.now) v.items) }
{
    let mut places = Vec::new(alloc);
    let count = edge_count(steps);
    if count / MOST_EDGES_A_STEP <= steps.len() {
        places.resize(count, steps.len())?;
        if put_by_edges(&mut places, steps) {
            keep_below(&mut places, steps.len());
            return Ok(places);
        }
        places.clear();
    }
    push_places(&mut places, steps.len())?;
    Ok(places)
}

// Returns a lower bound on the number of edges in the arrangement: one more than the greatest number of a step's edge.
fn edge_count<I: IntNumber>(steps: &[Step<I>]) -> usize {
    let mut greatest = 0;
    for step in steps {
        greatest = step.edge.max(greatest);
    }
    greatest.saturating_add(1)
}

// Puts the place of each step at the number of its edge, where no place of a step stands yet, and returns whether all
// are put.
fn put_by_edges<I: IntNumber, A: Allocator>(places: &mut Vec<usize, A>, steps: &[Step<I>]) -> bool
    ensures { IsTrue result → HasBelow (length steps.now) places.new.items }
{
    for place in 0..steps.len() {
        let number = steps[place].edge;
        if number >= places.len() {
            return false;
        }
        let held = places[number];
        if held < steps.len() {
            return false;
        }
        places[number] = place;
    }
    true
}

// Drops the numbers that are not below `limit`.
fn keep_below<A: Allocator>(numbers: &mut Vec<usize, A>, limit: usize)
    ensures { numbers.new.items ≡ filter (λ k. nat_lt k limit) numbers.old.items }
{
    numbers.retain(|k| *k < limit);
}

/// Adds all places below `count` to the list, which is empty.
pub(crate) fn push_places<A: Allocator>(
    places: &mut Vec<usize, A>,
    count: usize,
) -> Result<(), AllocError>
    requires { places.old.items ≡ [] }
    ensures ok { OnOk result (HasPlaces count places.new.items) }
{
    for place in 0..count {
        places.push(place)?;
    }
    Ok(())
}

/// Returns the number of taken places before the first open place. The first `passed` places are taken.
pub fn first_open(places: &[usize], taken: &[bool], passed: usize) -> usize
    requires within { All (λ k. k < length taken.now) places.now }
    requires passed { ArePassed taken.now places.now passed }
    ensures passed { ArePassed taken.now places.now result }
    ensures open { result < length places.now → is_open taken.now (slice_index_or places.now result 0) ≡ true }
{
    for i in passed..places.len() {
        if is_open(taken, places[i]) {
            return i;
        }
    }
    places.len()
}
