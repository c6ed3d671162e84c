//! The edges of a list that may meet other edges elsewhere than in ends, found by comparison with the list before.

ghost use Rattle.std.specs.Prelude.{◌≡◌, ◌≤◌, ◌<◌, ◌+◌, length, All, AllPairs, IsTrue, IfOk, IfSome, OnOk};
ghost use Rattle.overlay_order.specs.Content.{plain_edge, plain_edges, IsAscending, IsHeld};
ghost use Rattle.overlay_pairs.specs.Changed.{AreChangedBefore, AreHeldChangesOf, AreOpenIn, ArePlacesAt, StandAt};
ghost use Rattle.overlay_pairs.specs.Changed.{IsFirstFrom, WasClosed};
ghost use Rattle.overlay_pairs.specs.Strips.{AreHeldStripsOf};
ghost use Rattle.overlay_pairs.specs.Near.{AreNear};

use crate::near::find_near_behind;
use crate::strips::{Strips, strips_of};
use overlay_geom::number::IntNumber;
use overlay_order::count::EdgeCount;
use overlay_order::edge::{CountedEdge, comes_before, have_same_ends};
use std::alloc::{AllocError, Allocator};

/// The edges of a list that may meet other edges elsewhere than in ends. Any two edges outside it meet in ends alone.
#[derive(Drop)]
pub struct Changed<I: Copy, C: Copy, A: Allocator> {
    /// The places of these edges, in ascending order.
    pub places: Vec<usize, A>,
    /// The edges at these places.
    pub edges: Vec<CountedEdge<I, C>, A>,
    /// The strips of these edges, if some are made.
    pub strips: Option<Strips<I, A>>,
}

/// Returns the edges of a list that may meet other edges elsewhere than in ends. It leaves out each edge with the ends
/// of an edge before that is not open. The result is None where more than half of the edges have changed; then all
/// edges are compared. The edges ascend.
pub fn changes_between<I: IntNumber, C: EdgeCount, A: Allocator + Clone>(
    alloc: A,
    edges: &[CountedEdge<I, C>],
    before: &[CountedEdge<I, C>],
    is_open: &[bool],
) -> Result<Option<Changed<I, C, A>>, AllocError>
    requires held { All (IsHeld I.limit) (plain_edges I.whole C.counts edges.now) }
    requires ascending { IsAscending (plain_edges I.whole C.counts edges.now) }
    requires before { AreOpenIn (plain_edges I.whole C.counts before.now) is_open.now }
    ensures ok { IfOk result (λ found.
        IfSome found (AreHeldChangesOf I.whole C.counts I.limit (plain_edges I.whole C.counts edges.now))) }
{
    let places = changed_places(alloc.clone()?, edges, before, is_open)?;
    if edges.len() / 2 < places.len() {
        return Ok(None);
    }
    let changed = copied_edges(alloc.clone()?, edges, &places)?;
    let strips = strips_of(alloc, &changed)?;
    Ok(Some(Changed {
        places,
        edges: changed,
        strips,
    }))
}

/// Returns the places of the edges, without those with the ends of an edge of the list before that is not open. It
/// walks through both lists, which ascend.
fn changed_places<I: IntNumber, C: EdgeCount, A: Allocator>(
    alloc: A,
    edges: &[CountedEdge<I, C>],
    before: &[CountedEdge<I, C>],
    is_open: &[bool],
) -> Result<Vec<usize, A>, AllocError>
    requires { length is_open.now ≡ length before.now }
    ensures ok { IfOk result (λ places. AreChangedBefore (plain_edges I.whole C.counts edges.now)
        (plain_edges I.whole C.counts before.now) is_open.now (length edges.now) places.items) }
{
    let mut places = Vec::new(alloc);
    let mut at = 0;
    for i in 0..edges.len() {
        let e = &edges[i];
        at = place_from(before, at, e);
        if !was_closed(before, is_open, at, e) {
            places.push(i)?;
        }
    }
    Ok(places)
}

/// Returns the place of the first edge from `from` on that does not come before e, or the end of the list. That it is
/// the first is not promised: `was_closed` tests the edge there.
fn place_from<I: IntNumber, C: EdgeCount>(
    edges: &[CountedEdge<I, C>],
    from: usize,
    e: &CountedEdge<I, C>,
) -> usize
    ensures { from ≤ result }
{
    let mut at = from;
    while at < edges.len() && comes_before(&edges[at], e) {
        at += 1;
    }
    at
}

/// Returns whether the list before has an edge at the place, with the ends of e, that is not open. Only a true answer
/// is promised: an edge wrongly taken as changed only costs time.
fn was_closed<I: IntNumber, C: EdgeCount>(
    before: &[CountedEdge<I, C>],
    is_open: &[bool],
    at: usize,
    e: &CountedEdge<I, C>,
) -> bool
    requires { length is_open.now ≡ length before.now }
    ensures { IsTrue result → WasClosed (plain_edges I.whole C.counts before.now) is_open.now
        (plain_edge I.whole C.counts e.now) }
{
    if before.len() <= at {
        return false;
    }
    !is_open[at] && have_same_ends(&before[at], e)
}

/// Returns copies of the edges at the places, in their order.
fn copied_edges<I: IntNumber, C: EdgeCount, A: Allocator>(
    alloc: A,
    edges: &[CountedEdge<I, C>],
    places: &[usize],
) -> Result<Vec<CountedEdge<I, C>, A>, AllocError>
    requires { All (λ i. i < length edges.now) places.now }
    ensures ok { IfOk result (λ found. StandAt (plain_edges I.whole C.counts edges.now) places.now
        (plain_edges I.whole C.counts found.items)) }
{
    let mut found = Vec::with_capacity(alloc, places.len())?;
    for k in 0..places.len() {
        found.push(edges[places[k]])?;
    }
    Ok(found)
}

/// Finds the places of the later edges that the edge at place i may meet elsewhere than in ends. Where the changed
/// edges are known, an unchanged edge is compared with these alone. The edges ascend.
pub fn find_open<I: IntNumber, C: EdgeCount, A: Allocator>(
    near: &mut Vec<usize, A>,
    edges: &[CountedEdge<I, C>],
    strips: &Option<Strips<I, A>>,
    changed: &Option<Changed<I, C, A>>,
    i: usize,
) -> Result<(), AllocError>
    requires held { All (IsHeld I.limit) (plain_edges I.whole C.counts edges.now) }
    requires ascending { IsAscending (plain_edges I.whole C.counts edges.now) }
    requires strips { IfSome strips.now (AreHeldStripsOf I.whole I.limit (plain_edges I.whole C.counts edges.now)) }
    requires changed { IfSome changed.now
        (AreHeldChangesOf I.whole C.counts I.limit (plain_edges I.whole C.counts edges.now)) }
    requires within { i < length edges.now }
    ensures ok { OnOk result (AreNear (plain_edges I.whole C.counts edges.now) i near.new.items) }
{
    let e = &edges[i];
    let Some(changed) = changed else {
        return find_near_behind(near, edges, strips, e, i + 1);
    };
    let k = first_from(&changed.places, i);
    if k == changed.places.len() {
        near.clear();
        Ok(())
    } else if changed.places[k] == i {
        find_near_behind(near, edges, strips, e, i + 1)
    } else {
        find_near_behind(near, &changed.edges, &changed.strips, e, k)?;
        put_places(near, &changed.places);
        Ok(())
    }
}

/// Returns the place of the first number in an ascending list that is at least i, or the length of the list.
fn first_from(places: &[usize], i: usize) -> usize
    requires { AllPairs (λ j k. j < k) places.now }
    ensures { IsFirstFrom places.now i result }
{
    places.partition_point(|place| *place < i)
}

/// Replaces each number in `near` by the entry of `places` at that number.
fn put_places<A: Allocator>(near: &mut Vec<usize, A>, places: &[usize])
    requires { All (λ k. k < length places.now) near.old.items }
    ensures { ArePlacesAt places.now near.old.items near.new.items }
{
    for n in 0..near.len() {
        near[n] = places[near[n]];
    }
}
