//! Edges on one line, parted at each other's ends, in ascending order.

ghost use Rattle.std.specs.Prelude.{◌≡◌, ◌^◌, ◌<◌, ◌++◌, ◌∷◌, [], false, List, map, All, IfOk, OnOk};
ghost use Rattle.overlay_geom.specs.Edges.{ends_of, weight};
ghost use Rattle.overlay_geom.specs.Plane.{edge_lt, Edge};
ghost use Rattle.overlay_order.specs.Content.{carried_edges, plain_edges, IsAscending, IsContent, IsHeld};
ghost use Rattle.overlay_parts.specs.EdgeOrder.{IsInOrder};
ghost use Rattle.overlay_parts.specs.LineParts.{AreOnLine};
ghost use Rattle.overlay_parts.specs.PartedContents.{edges_in_parts, AreLightParts};
ghost use Rattle.overlay_parts.specs.Parts.{ends_of_part, lone_part, plain_part, plain_parts, AreParted, IsHeldPart};
ghost use Rattle.overlay_parts.specs.Parts.{Part as WholePart};
ghost use Rattle.overlay_parts.specs.Stores.{IsStoreReached};
ghost use Rattle.overlay_parts.specs.declared.parts.Part.{Part as HeldPart};

use crate::lines::{line_end, sorted_by_lines};
use crate::parts::{Part, lone_part, parts_of, start_of_both};
use overlay_geom::number::IntNumber;
use overlay_order::count::EdgeCount;
use overlay_order::edge::{CountedEdge, compare_edges, have_same_ends};
use std::alloc::{AllocError, Allocator};

/// Returns the parts of the edges, in ascending order.
pub fn parts_by_lines<I: IntNumber, C: EdgeCount, A: Allocator + Clone>(
    alloc: A,
    edges: &[CountedEdge<I, C>],
    store: &mut C::Store,
) -> Result<Vec<Part<I, C>, A>, AllocError>
    requires { IsContent I.limit (plain_edges I.whole C.counts edges.now) }
    ensures parted { IfOk result (λ parts. AreParted C.merges
        (map lone_part (carried_edges I.whole C.counts edges.now)) (plain_parts I.whole C.counts parts.items)) }
    ensures held { IfOk result (λ parts. All (IsHeldPart I.limit) (plain_parts I.whole C.counts parts.items)) }
    ensures ascending { IfOk result (λ parts.
        IsAscending (edges_in_parts (plain_parts I.whole C.counts parts.items))) }
    ensures store { IsStoreReached C.writes store.old store.new }
{
    let sorted = sorted_by_lines(alloc.clone()?, edges)?;
    let mut parts = parts_line_by_line(alloc.clone()?, &sorted, store)?;
    parts.sort_by(|s, t| compare_edges(&s.edge, &t.edge))?;
    equal_joined(alloc, &parts, store)
}

/// Returns the parts of edges, line by line. Edges on one line are parted at each other's ends where they stand side by
/// side.
fn parts_line_by_line<I: IntNumber, C: EdgeCount, A: Allocator + Clone>(
    alloc: A,
    edges: &[CountedEdge<I, C>],
    store: &mut C::Store,
) -> Result<Vec<Part<I, C>, A>, AllocError>
    requires { IsContent I.limit (plain_edges I.whole C.counts edges.now) }
    ensures parted { IfOk result (λ parts. AreParted C.merges
        (map lone_part (carried_edges I.whole C.counts edges.now)) (plain_parts I.whole C.counts parts.items)) }
    ensures held { IfOk result (λ parts. All (IsHeldPart I.limit) (plain_parts I.whole C.counts parts.items)) }
    ensures store { IsStoreReached C.writes store.old store.new }
{
    let mut parts = Vec::with_capacity(alloc.clone()?, edges.len())?;
    let mut from = 0;
    while from < edges.len() {
        let to = line_end(edges, from);
        push_parts(&mut parts, alloc.clone()?, &edges[from..to], store)?;
        from = to;
    }
    Ok(parts)
}

/// Adds the parts of edges on one line.
fn push_parts<I: IntNumber, C: EdgeCount, A: Allocator + Clone>(
    parts: &mut Vec<Part<I, C>, A>,
    alloc: A,
    edges: &[CountedEdge<I, C>],
    store: &mut C::Store,
) -> Result<(), AllocError>
    requires held { All (IsHeld I.limit) (plain_edges I.whole C.counts edges.now) }
    requires light { weight (plain_edges I.whole C.counts edges.now) < 2 ^ 31 }
    requires line { (line : Edge) × AreOnLine line (plain_edges I.whole C.counts edges.now) }
    ensures parted { OnOk result (AreParted C.merges
        (plain_parts I.whole C.counts parts.old.items ++ map lone_part (carried_edges I.whole C.counts edges.now))
        (plain_parts I.whole C.counts parts.new.items)) }
    ensures held { OnOk result (All (IsHeldPart I.limit) (plain_parts I.whole C.counts parts.old.items)
        → All (IsHeldPart I.limit) (plain_parts I.whole C.counts parts.new.items)) }
    ensures store { IsStoreReached C.writes store.old store.new }
{
    if edges.len() == 1 {
        parts.push(lone_part(&edges[0]))?;
        return Ok(());
    }
    let more = parts_of(alloc, edges, store)?;
    for i in 0..more.len() {
        parts.push(more[i])?;
    }
    Ok(())
}

/// Returns the parts in their order, with equal parts joined. They are sorted by their ends.
fn equal_joined<I: IntNumber, C: EdgeCount, A: Allocator>(
    alloc: A,
    parts: &[Part<I, C>],
    store: &mut C::Store,
) -> Result<Vec<Part<I, C>, A>, AllocError>
    requires held { All (IsHeldPart I.limit) (plain_parts I.whole C.counts parts.now) }
    requires order { IsInOrder (edges_in_parts (plain_parts I.whole C.counts parts.now)) }
    requires light { AreLightParts C.merges (plain_parts I.whole C.counts parts.now) }
    ensures parted { IfOk result (λ joined. AreParted C.merges
        (plain_parts I.whole C.counts parts.now) (plain_parts I.whole C.counts joined.items)) }
    ensures held { IfOk result (λ joined. All (IsHeldPart I.limit) (plain_parts I.whole C.counts joined.items)) }
    ensures ascending { IfOk result (λ joined.
        IsAscending (edges_in_parts (plain_parts I.whole C.counts joined.items))) }
    ensures store { IsStoreReached C.writes store.old store.new }
{
    let mut joined = Vec::with_capacity(alloc, parts.len())?;
    for i in 0..parts.len() {
        push_joined(&mut joined, &parts[i], store)?;
    }
    Ok(joined)
}

/// Adds a part, or joins it with the last part if the two are equal.
fn push_joined<I: IntNumber, C: EdgeCount, A: Allocator>(
    joined: &mut Vec<Part<I, C>, A>,
    part: &Part<I, C>,
    store: &mut C::Store,
) -> Result<(), AllocError>
    requires parts { All (IsHeldPart I.limit) (plain_parts I.whole C.counts joined.old.items) }
    requires part { IsHeldPart I.limit (plain_part I.whole C.counts part.now) }
    requires light { (rest : List (WholePart C)) × AreLightParts C.merges
        (plain_parts I.whole C.counts joined.old.items ++ plain_part I.whole C.counts part.now ∷ rest) }
    ensures parted { OnOk result (AreParted C.merges
        (plain_parts I.whole C.counts joined.old.items ++ plain_part I.whole C.counts part.now ∷ [])
        (plain_parts I.whole C.counts joined.new.items)) }
    ensures held { OnOk result (All (IsHeldPart I.limit) (plain_parts I.whole C.counts joined.new.items)) }
    ensures ascending { OnOk result (let edges = λ (parts : List (HeldPart _ _)).
        edges_in_parts (plain_parts I.whole C.counts parts) in
        IsAscending (edges joined.old.items) → All (λ e. edge_lt (ends_of_part (plain_part I.whole C.counts part.now))
        (ends_of e) ≡ false) (edges joined.old.items) → IsAscending (edges joined.new.items)) }
    ensures up_to { OnOk result (let is_up_to = λ (parts : List (HeldPart _ _)).
        All (λ e. edge_lt (ends_of_part (plain_part I.whole C.counts part.now)) (ends_of e) ≡ false)
        (edges_in_parts (plain_parts I.whole C.counts parts)) in
        is_up_to joined.old.items → is_up_to joined.new.items) }
    ensures store { IsStoreReached C.writes store.old store.new }
{
    let last = joined.len().saturating_sub(1);
    if last < joined.len() && have_same_ends(&joined[last].edge, &part.edge) {
        joined[last] = start_of_both(&joined[last], part, store);
        return Ok(());
    }
    joined.push(*part)?;
    Ok(())
}
