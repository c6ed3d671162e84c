//! Contacts that one edge tells: one of a shape that crosses an edge of the other shape.

ghost use Rattle.std.specs.Prelude.{◌≡◌, ◌↔◌, ◌<◌, length, All, IsTrue, IfOk, IfSome};
ghost use Rattle.overlay_geom.specs.Edges.{ends_of};
ghost use Rattle.overlay_geom.specs.Rules.{is_filled};
ghost use Rattle.overlay_plane.specs.Balance.{HasBalancedCounts};
ghost use Rattle.overlay_order.specs.Content.{plain_edge, plain_edges, IsHeld, IsAscending};
ghost use Rattle.overlay_pairs.specs.Near.{AreNear};
ghost use Rattle.overlay_pairs.specs.Strips.{AreHeldStripsOf};
ghost use Rattle.overlay_given.specs.Crossing.{cross, crosses_line, are_of_two, cross_of_two, PassesAtSome};
ghost use Rattle.overlay_given.specs.Relations.{AreContacts};

use crate::one_edge::sides_on;
use crate::relations::{Contacts, found_in};
use overlay_exact::exact_int::ExactInt;
use overlay_geom::fill_rule::FillRule;
use overlay_geom::number::{IntNumber, WideIntNumber};
use overlay_geom::vector::cross_at;
use overlay_order::count::EdgeCount;
use overlay_order::edge::CountedEdge;
use overlay_pairs::changed::find_open;
use overlay_pairs::strips::{Strips, strips_of};
use std::alloc::{AllocError, Allocator};

// Number of edges that may be walked in vain. Each costs a look at all edges.
const MOST_IN_VAIN: u32 = 8;

/// Returns how subject and clip meet, if an edge of one that crosses an edge of the other tells all. It walks few such
/// edges, from the left.
pub(crate) fn crossing_contacts<I: ExactInt, C: EdgeCount, A: Allocator + Clone>(
    alloc: A,
    edges: &[CountedEdge<I, C>],
    rule: FillRule,
) -> Result<Option<Contacts>, AllocError>
    requires held { All (IsHeld I.limit) (plain_edges I.whole C.counts edges.now) }
    requires ascending { IsAscending (plain_edges I.whole C.counts edges.now) }
    requires balanced { HasBalancedCounts (plain_edges I.whole C.counts edges.now) }
    ensures ok { IfOk result (λ found. IfSome found
        (AreContacts (is_filled rule) (plain_edges I.whole C.counts edges.now))) }
{
    let strips = strips_of(alloc.clone()?, edges)?;
    contacts_by_strips(alloc, edges, &strips, rule)
}

// Returns the contacts that a crossing edge tells, as `crossing_contacts` does. The strips are those of the edges.
fn contacts_by_strips<I: ExactInt, C: EdgeCount, A: Allocator + Clone>(
    alloc: A,
    edges: &[CountedEdge<I, C>],
    strips: &Option<Strips<I, A>>,
    rule: FillRule,
) -> Result<Option<Contacts>, AllocError>
    requires held { All (IsHeld I.limit) (plain_edges I.whole C.counts edges.now) }
    requires ascending { IsAscending (plain_edges I.whole C.counts edges.now) }
    requires balanced { HasBalancedCounts (plain_edges I.whole C.counts edges.now) }
    requires strips { IfSome strips.now (AreHeldStripsOf I.whole I.limit (plain_edges I.whole C.counts edges.now)) }
    ensures ok { IfOk result (λ found. IfSome found
        (AreContacts (is_filled rule) (plain_edges I.whole C.counts edges.now))) }
{
    let mut near = Vec::new(alloc.clone()?);
    let mut in_vain = 0;
    for i in 0..edges.len() {
        find_open(&mut near, edges, strips, &None, i)?;
        if crosses_some(edges, i, &near) {
            let found = contacts_at(alloc.clone()?, edges, i, rule)?;
            if found.is_some() || in_vain >= MOST_IN_VAIN {
                return Ok(found);
            }
            in_vain += 1;
        }
    }
    Ok(None)
}

// Returns whether the edge at place i crosses an edge of the other shape at one of the places `near`.
fn crosses_some<I: IntNumber, C: EdgeCount>(
    edges: &[CountedEdge<I, C>],
    i: usize,
    near: &[usize],
) -> bool
    requires held { All (IsHeld I.limit) (plain_edges I.whole C.counts edges.now) }
    requires within { i < length edges.now }
    requires near { AreNear (plain_edges I.whole C.counts edges.now) i near.now }
    ensures { IsTrue result ↔ PassesAtSome cross_of_two (plain_edges I.whole C.counts edges.now) i near.now }
{
    let e = &edges[i];
    for k in 0..near.len() {
        let j = near[k];
        let f = &edges[j];
        if cross_of_two(e, f) {
            return true;
        }
    }
    false
}

// Returns whether the edges cross, one with counts of the subject alone and the other of the clip alone.
fn cross_of_two<I: IntNumber, C: EdgeCount>(e: &CountedEdge<I, C>, f: &CountedEdge<I, C>) -> bool
    requires one { IsHeld I.limit (plain_edge I.whole C.counts e.now) }
    requires other { IsHeld I.limit (plain_edge I.whole C.counts f.now) }
    ensures { result ≡ cross_of_two (plain_edge I.whole C.counts e.now) (plain_edge I.whole C.counts f.now) }
{
    are_of_two(e, f) && cross(e, f)
}

// Returns whether one edge has counts of the subject alone, and the other of the clip alone.
fn are_of_two<I: IntNumber, C: EdgeCount>(e: &CountedEdge<I, C>, f: &CountedEdge<I, C>) -> bool
    ensures { result ≡ are_of_two (plain_edge I.whole C.counts e.now) (plain_edge I.whole C.counts f.now) }
{
    let of_subj = e.count.clip() == 0 && f.count.subj() == 0;
    let of_clip = e.count.subj() == 0 && f.count.clip() == 0;
    of_subj || of_clip
}

// Returns whether the edges cross: the ends of each lie on different sides of the other's line.
pub(crate) fn cross<I: IntNumber, C: EdgeCount>(
    e: &CountedEdge<I, C>,
    f: &CountedEdge<I, C>,
) -> bool
    requires one { IsHeld I.limit (plain_edge I.whole C.counts e.now) }
    requires other { IsHeld I.limit (plain_edge I.whole C.counts f.now) }
    ensures { result
        ≡ cross (ends_of (plain_edge I.whole C.counts e.now)) (ends_of (plain_edge I.whole C.counts f.now)) }
{
    crosses_line(e, f) && crosses_line(f, e)
}

// Returns whether the ends of f lie on different sides of the line of e.
fn crosses_line<I: IntNumber, C: EdgeCount>(e: &CountedEdge<I, C>, f: &CountedEdge<I, C>) -> bool
    requires one { IsHeld I.limit (plain_edge I.whole C.counts e.now) }
    requires other { IsHeld I.limit (plain_edge I.whole C.counts f.now) }
    ensures { result
        ≡ crosses_line (ends_of (plain_edge I.whole C.counts e.now)) (ends_of (plain_edge I.whole C.counts f.now)) }
{
    let from = cross_at(e.a, e.b, f.a).sign();
    let to = cross_at(e.a, e.b, f.b).sign();
    from.is_gt() && to.is_lt() || from.is_lt() && to.is_gt()
}

// Returns how the shapes meet, if the pieces of the edge at place i tell all. It looks at all edges.
fn contacts_at<I: ExactInt, C: EdgeCount, A: Allocator + Clone>(
    alloc: A,
    edges: &[CountedEdge<I, C>],
    i: usize,
    rule: FillRule,
) -> Result<Option<Contacts>, AllocError>
    requires held { All (IsHeld I.limit) (plain_edges I.whole C.counts edges.now) }
    requires ascending { IsAscending (plain_edges I.whole C.counts edges.now) }
    requires balanced { HasBalancedCounts (plain_edges I.whole C.counts edges.now) }
    requires within { i < length edges.now }
    ensures ok { IfOk result (λ found. IfSome found
        (AreContacts (is_filled rule) (plain_edges I.whole C.counts edges.now))) }
{
    let pieces = sides_on(alloc, edges, i, rule)?;
    let told = found_in(&pieces);
    Ok(told.crossing())
}
