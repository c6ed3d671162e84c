//! Tests whether the edges of a list meet in ends alone.

ghost use Rattle.std.specs.Prelude.{◌↔◌, ◌<◌, length, All, IsTrue, IfOk, IfSome};
ghost use Rattle.overlay_geom.specs.Edges.{ends_of};
ghost use Rattle.overlay_geom.specs.Resolved.{IsPlaced};
ghost use Rattle.overlay_geom.specs.Settled.{MeetInEnds, IsSettled};
ghost use Rattle.overlay_order.specs.Content.{plain_edge, plain_edges, IsHeld, IsAscending};
ghost use Rattle.overlay_pairs.specs.Changed.{AreHeldChangesOf};
ghost use Rattle.overlay_pairs.specs.Strips.{AreHeldStripsOf};
ghost use Rattle.overlay_pairs.specs.Places.{AreSettledBefore, AreSettledUpTo};
ghost use Rattle.overlay_pairs.specs.Near.{AreNear};

use crate::changed::{Changed, find_open};
use crate::strips::{Strips, strips_of};
use overlay_geom::edge::IntEdge;
use overlay_geom::edge_pair;
use overlay_geom::edge_pair::Place;
use overlay_geom::number::IntNumber;
use overlay_order::count::EdgeCount;
use overlay_order::edge::CountedEdge;
use std::alloc::{AllocError, Allocator};

/// Returns whether any two different edges share a point of the plane only where it is an end of both. The edges
/// ascend.
pub fn is_settled<I: IntNumber, C: EdgeCount, A: Allocator + Clone>(
    alloc: A,
    edges: &[CountedEdge<I, C>],
) -> Result<bool, AllocError>
    requires held { All (IsHeld I.limit) (plain_edges I.whole C.counts edges.now) }
    requires ascending { IsAscending (plain_edges I.whole C.counts edges.now) }
    ensures ok { IfOk result (λ is_settled.
        IsTrue is_settled ↔ IsSettled (plain_edges I.whole C.counts edges.now)) }
{
    let strips = strips_of(alloc.clone()?, edges)?;
    let count = count_settled(alloc, edges, &strips, &None)?;
    Ok(count == edges.len())
}

/// Returns the number of edges at the front that meet each later edge in ends alone. It is the number of all edges
/// where they are settled. Where the changed edges are known, pairs of unchanged edges are not tested. The edges
/// ascend.
pub fn count_settled<I: IntNumber, C: EdgeCount, A: Allocator>(
    alloc: A,
    edges: &[CountedEdge<I, C>],
    strips: &Option<Strips<I, A>>,
    changed: &Option<Changed<I, C, A>>,
) -> Result<usize, AllocError>
    requires held { All (IsHeld I.limit) (plain_edges I.whole C.counts edges.now) }
    requires ascending { IsAscending (plain_edges I.whole C.counts edges.now) }
    requires strips { IfSome strips.now (AreHeldStripsOf I.whole I.limit (plain_edges I.whole C.counts edges.now)) }
    requires changed { IfSome changed.now
        (AreHeldChangesOf I.whole C.counts I.limit (plain_edges I.whole C.counts edges.now)) }
    ensures ok { IfOk result (λ count. AreSettledBefore (plain_edges I.whole C.counts edges.now) count) }
    ensures most { IfOk result (λ count. count < length edges.now
        → ¬ (AreSettledUpTo (plain_edges I.whole C.counts edges.now) count (length edges.now))) }
{
    let mut near = Vec::new(alloc);
    for i in 0..edges.len() {
        find_open(&mut near, edges, strips, changed, i)?;
        if !is_settled_from(edges, i, &near) {
            return Ok(i);
        }
    }
    Ok(edges.len())
}

/// Returns whether the edge at place i meets each later edge in ends alone. It may meet only the later edges at the
/// places `near` elsewhere.
fn is_settled_from<I: IntNumber, C: EdgeCount>(
    edges: &[CountedEdge<I, C>],
    i: usize,
    near: &[usize],
) -> bool
    requires held { All (IsHeld I.limit) (plain_edges I.whole C.counts edges.now) }
    requires within { i < length edges.now }
    requires near { AreNear (plain_edges I.whole C.counts edges.now) i near.now }
    ensures { IsTrue result ↔ AreSettledUpTo (plain_edges I.whole C.counts edges.now) i (length edges.now) }
{
    let e = &edges[i];
    for k in 0..near.len() {
        let j = near[k];
        if !meet_in_ends(e, &edges[j]) {
            return false;
        }
    }
    true
}

/// Returns whether the two edges meet in ends alone. For an edge and itself it returns false.
pub fn meet_in_ends<I: IntNumber, C: EdgeCount>(
    e: &CountedEdge<I, C>,
    f: &CountedEdge<I, C>,
) -> bool
    requires one { IsHeld I.limit (plain_edge I.whole C.counts e.now) }
    requires other { IsHeld I.limit (plain_edge I.whole C.counts f.now) }
    ensures settles { IsTrue result
        ↔ MeetInEnds (ends_of (plain_edge I.whole C.counts e.now)) (ends_of (plain_edge I.whole C.counts f.now)) }
{
    edge_pair::meet_in_ends(IntEdge { a: e.a, b: e.b }, IntEdge { a: f.a, b: f.b })
}

/// Returns the position of f relative to the line of e.
pub fn place_by<I: IntNumber, C: EdgeCount>(e: &CountedEdge<I, C>, f: &CountedEdge<I, C>) -> Place
    requires one { IsHeld I.limit (plain_edge I.whole C.counts e.now) }
    requires other { IsHeld I.limit (plain_edge I.whole C.counts f.now) }
    ensures { IsPlaced result (ends_of (plain_edge I.whole C.counts e.now))
        (ends_of (plain_edge I.whole C.counts f.now)) }
{
    edge_pair::place_by(IntEdge { a: e.a, b: e.b }, IntEdge { a: f.a, b: f.b })
}
