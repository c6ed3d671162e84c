//! The order of steps by the starts of their edges, top first.

ghost use Rattle.std.specs.Prelude.{◌≡◌, ◌<◌, false, length, slice_index_or, All, AllPairs, IsTrue, OnOk};
ghost use Rattle.std.specs.List.Sorted.{IsPermutation, IsSortedBy};
ghost use Rattle.std.specs.Ordering.{is_lt};
ghost use Rattle.overlay_geom.specs.Plane.{edge_of};
ghost use Rattle.overlay_geom.specs.Resolved.{plain_edge, IsLongEdge};
ghost use Rattle.overlay_walk.specs.Places.{comes_top_first, is_place_top_first};
ghost use Rattle.overlay_walk.specs.Steps.{plain_step, plain_steps, IsLong};

use crate::step::{Step, stepped_edge};
use overlay_geom::edge::{IntEdge, is_before};
use overlay_geom::edge_pair::is_same;
use overlay_geom::number::{IntNumber, WideIntNumber};
use overlay_geom::vector::cross_at;
use overlay_order::sort_runs::sort_neighbours;
use std::alloc::{AllocError, Allocator};
use std::cmp::Ordering;

/// Sorts places of steps by the starts of the steps' edges: by the smaller ends, and from one point by slope, highest
/// first.
pub(crate) fn sort_top_first<I: IntNumber, A: Allocator>(
    places: &mut Vec<usize, A>,
    steps: &[Step<I>],
) -> Result<(), AllocError>
    requires long { All (IsLong I.limit) (plain_steps I.whole steps.now) }
    requires within { All (λ k. k < length steps.now) places.old.items }
    ensures permutation { IsPermutation places.old.items places.new.items }
    ensures order { OnOk result (AllPairs (λ j k. is_place_top_first (plain_steps I.whole steps.now) k j ≡ false)
        places.new.items) }
{
    let [first, ..] = steps else {
        return Ok(());
    };
    let starts = PlacedSteps {
        steps,
        behind: *first,
    };
    if starts.are_in_order(places) {
        return Ok(());
    }
    if sort_neighbours(places, |j, k| starts.compare(*j, *k)) {
        return Ok(());
    }
    places.sort_by(|j, k| starts.compare(*j, *k))?;
    Ok(())
}

/// Steps whose places are compared, and the step that stands for places behind all.
#[derive(Drop)]
pub(crate) struct PlacedSteps<'a, I: IntNumber> {
    /// The steps.
    pub(crate) steps: &'a [Step<I>],
    /// The step for places behind all.
    pub(crate) behind: Step<I>,
    pub(crate) ghost steps_are_long: { All (IsLong I.limit) (plain_steps I.whole steps.now) },
    pub(crate) ghost behind_is_long: { IsLong I.limit (plain_step I.whole behind) },
}

impl<'a, I: IntNumber> PlacedSteps<'a, I> {
    // Compares the starts of the edges of the steps at two places: `Less` exactly where the first comes before the
    // second.
    fn compare(&self, j: usize, k: usize) -> Ordering
        ensures { let steps = plain_steps I.whole self.now.steps.now in
            let behind = plain_step I.whole self.now.behind in
            is_lt result ≡ comes_top_first (edge_of (slice_index_or steps j behind))
            (edge_of (slice_index_or steps k behind)) }
    {
        if comes_before(stepped_edge(self.step_at(j)), stepped_edge(self.step_at(k))) {
            Ordering::Less
        } else {
            Ordering::Greater
        }
    }

    // Returns whether places are in the order of these starts. It takes the edge of each step once.
    fn are_in_order(&self, places: &[usize]) -> bool
        ensures { let steps = plain_steps I.whole self.now.steps.now in
            let behind = plain_step I.whole self.now.behind in
            IsTrue result → IsSortedBy (λ j k. comes_top_first (edge_of (slice_index_or steps j behind))
            (edge_of (slice_index_or steps k behind))) places.now }
    {
        if places.is_empty() {
            return true;
        }
        let mut last = stepped_edge(self.step_at(places[0]));
        for i in 1..places.len() {
            let edge = stepped_edge(self.step_at(places[i]));
            if comes_before(edge, last) {
                return false;
            }
            last = edge;
        }
        true
    }

    /// Returns the step at a place.
    pub(crate) fn step_at(&self, place: usize) -> Step<I>
        ensures is { plain_step I.whole result
            ≡ slice_index_or (plain_steps I.whole self.now.steps.now) place (plain_step I.whole self.now.behind) }
        ensures long { IsLong I.limit (plain_step I.whole result) }
    {
        if place < self.steps.len() {
            self.steps[place]
        } else {
            self.behind
        }
    }
}

// Returns whether the start of edge e comes before that of f: it is a smaller point, or both are one point and e leads
// to the left of f.
fn comes_before<I: IntNumber>(e: IntEdge<I>, f: IntEdge<I>) -> bool
    requires e { IsLongEdge I.limit (plain_edge I.whole e) }
    requires f { IsLongEdge I.limit (plain_edge I.whole f) }
    ensures { result ≡ comes_top_first (plain_edge I.whole e) (plain_edge I.whole f) }
{
    if is_same(e.a, f.a) {
        cross_at(e.a, e.b, f.b).sign().is_lt()
    } else {
        is_before(e.a, f.a)
    }
}
