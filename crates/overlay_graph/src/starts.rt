//! The places of edges in the order in which a sweep comes to the edges.

ghost use Rattle.std.specs.Prelude.{◌≡◌, ◌+◌, ◌<◌, ◌≤◌, [], false, length, slice_index_or, All, IfOk, IsTrue};
ghost use Rattle.std.specs.Prelude.{vec_capacity};
ghost use Rattle.std.specs.List.Sorted.{IsPermutation, IsSortedBy, IsSortedWithin};
ghost use Rattle.std.specs.Ordering.{is_lt};
ghost use Rattle.overlay_geom.specs.Edges.{ends_of};
ghost use Rattle.overlay_geom.specs.Numbered.{numbered};
ghost use Rattle.overlay_geom.specs.Plane.{point_eq};
ghost use Rattle.overlay_plane.specs.Anchors.{is_anchored_before};
ghost use Rattle.overlay_order.specs.Content.{plain_edge, plain_edges, IsAscending, IsContent, IsHeld};
ghost use Rattle.overlay_graph.specs.Starts.{numbered_at, starts_before_at, AreByStart};

use overlay_geom::edge::is_before;
use overlay_geom::edge_pair::is_same;
use overlay_geom::number::{IntNumber, WideIntNumber};
use overlay_geom::vector::cross_at;
use overlay_order::count::EdgeCount;
use overlay_order::edge::CountedEdge;
use overlay_order::sort_runs::{REACH, move_back};
use std::alloc::{AllocError, Allocator};
use std::cmp::Ordering;

/// Returns the places of the edges by their smaller ends, and of edges from one point by slope, lowest first. It takes
/// one pass where few edges start in one point.
pub(crate) fn places_by_start<I: IntNumber, C: EdgeCount, A: Allocator>(
    alloc: A,
    edges: &[CountedEdge<I, C>],
) -> Result<Vec<usize, A>, AllocError>
    requires content { IsContent I.limit (plain_edges I.whole C.counts edges.now) }
    requires ascending { IsAscending (plain_edges I.whole C.counts edges.now) }
    ensures ok { let es = plain_edges I.whole C.counts edges.now in
        IfOk result (λ v. AreByStart es (numbered_at es v.items)) }
{
    let mut places = Vec::with_capacity(alloc, edges.len())?;
    let [first, ..] = edges else {
        return Ok(places);
    };
    let starts = Starts {
        edges,
        behind: *first,
    };
    if starts.push_places(&mut places) {
        return Ok(places);
    }
    places.sort_by(|j, k| starts.compare(*j, *k))?;
    Ok(places)
}

// Edges whose places are compared, and the edge that stands for places behind all.
#[derive(Drop)]
struct Starts<'a, I: IntNumber, C: EdgeCount> {
    edges: &'a [CountedEdge<I, C>],
    behind: CountedEdge<I, C>,
    ghost edges_are_held: { All (IsHeld I.limit) (plain_edges I.whole C.counts edges.now) },
    ghost behind_is_held: { IsHeld I.limit (plain_edge I.whole C.counts behind) },
}

impl<'a, I: IntNumber, C: EdgeCount> Starts<'a, I, C> {
    // Adds the places of all edges to a list without places, and moves each back past those right before it whose edges
    // start behind its edge. Returns whether all are in the order of their starts: few start in one point.
    fn push_places<A: Allocator>(&self, places: &mut Vec<usize, A>) -> bool
        requires ascending { IsAscending (plain_edges I.whole C.counts self.now.edges.now) }
        requires empty { places.old.items ≡ [] }
        requires room { length self.now.edges.now ≤ vec_capacity places.old }
        ensures permutation { let es = plain_edges I.whole C.counts self.now.edges.now in
            IsPermutation (numbered 0 es) (numbered_at es places.new.items) }
        ensures sorted { let es = plain_edges I.whole C.counts self.now.edges.now in
            let behind = plain_edge I.whole C.counts self.now.behind in
            IsTrue result → IsSortedBy (starts_before_at es behind) places.new.items }
    {
        let mut is_sorted = true;
        for place in 0..self.edges.len() {
            places.push_reserved(place);
            if self.shares_start(places, place) {
                is_sorted &= self.move_back(places, place);
            }
        }
        is_sorted
    }

    // Returns whether the edge at a place starts in one point with that whose place stands right before the place in a
    // list.
    fn shares_start(&self, places: &[usize], place: usize) -> bool
        requires inside { place < length self.now.edges.now }
        requires listed { place ≤ length places.now }
        requires below { All (λ k. k < length self.now.edges.now) places.now }
        ensures apart { let es = plain_edges I.whole C.counts self.now.edges.now in
            let behind = plain_edge I.whole C.counts self.now.behind in
            result ≡ false → (k d : _) → k + 1 ≡ place
            → point_eq (slice_index_or es (slice_index_or places.now k d) behind).a (slice_index_or es place behind).a
            ≡ false }
    {
        place > 0 && self.start_together(places[place - 1], place)
    }

    // Returns whether the edges at two places start in one point.
    fn start_together(&self, j: usize, k: usize) -> bool
        requires j { j < length self.now.edges.now }
        requires k { k < length self.now.edges.now }
        ensures { let es = plain_edges I.whole C.counts self.now.edges.now in
            let behind = plain_edge I.whole C.counts self.now.behind in
            result ≡ point_eq (slice_index_or es j behind).a (slice_index_or es k behind).a }
    {
        is_same(self.edges[j].a, self.edges[k].a)
    }

    // Moves the number at a place of a list back past those right before it whose edges start behind its edge. Returns
    // whether it had to go no further than few places.
    fn move_back(&self, places: &mut [usize], place: usize) -> bool
        requires within { place < length places.old }
        ensures permutation { IsPermutation places.old places.new }
        ensures sorted { let es = plain_edges I.whole C.counts self.now.edges.now in
            let behind = plain_edge I.whole C.counts self.now.behind in
            IsTrue result → IsSortedWithin (starts_before_at es behind) places.old 0 place
            → IsSortedWithin (starts_before_at es behind) places.new 0 (place + 1) }
    {
        move_back(places, place, REACH, &|j, k| self.compare(*j, *k))
    }

    // Compares the starts of the edges at two places.
    fn compare(&self, j: usize, k: usize) -> Ordering
        ensures { let es = plain_edges I.whole C.counts self.now.edges.now in
            let behind = plain_edge I.whole C.counts self.now.behind in
            is_lt result ≡ starts_before_at es behind j k }
    {
        compare_starts(self.edge_at(j), self.edge_at(k))
    }

    // Returns the edge at a place.
    fn edge_at(&self, place: usize) -> &CountedEdge<I, C>
        ensures is { plain_edge I.whole C.counts result.now ≡ slice_index_or
            (plain_edges I.whole C.counts self.now.edges.now) place (plain_edge I.whole C.counts self.now.behind) }
        ensures held { IsHeld I.limit (plain_edge I.whole C.counts result.now) }
    {
        if place < self.edges.len() {
            &self.edges[place]
        } else {
            &self.behind
        }
    }
}

/// Compares two edges by their smaller ends, then by slope: `Less` exactly where the first starts before the second.
fn compare_starts<I: IntNumber, C: EdgeCount>(
    e: &CountedEdge<I, C>,
    f: &CountedEdge<I, C>,
) -> Ordering
    requires e { IsHeld I.limit (plain_edge I.whole C.counts e.now) }
    requires f { IsHeld I.limit (plain_edge I.whole C.counts f.now) }
    ensures { is_lt result ≡ is_anchored_before
        (ends_of (plain_edge I.whole C.counts e.now)) (ends_of (plain_edge I.whole C.counts f.now)) }
{
    if is_same(e.a, f.a) {
        cross_at(e.a, f.b, e.b).sign()
    } else if is_before(e.a, f.a) {
        Ordering::Less
    } else {
        Ordering::Greater
    }
}
