//! The filled sides of the edges of an arrangement with balanced counts, by one sweep from left to right.

ghost use Rattle.std.specs.Prelude.{◌≡◌, ◌+◌, ◌<◌, false, length, map, take, slice_index_or, All, IfOk, OnOk};
ghost use Rattle.overlay_geom.specs.Settled.{IsSettled};
ghost use Rattle.overlay_geom.specs.Rules.{fill_bits};
ghost use Rattle.overlay_plane.specs.Balance.{HasBalancedCounts};
ghost use Rattle.overlay_scan.specs.Scan.{empty_sweep};
ghost use Rattle.overlay_scan.specs.Sweeps.{IsSwept};
ghost use Rattle.overlay_order.specs.Content.{plain_edges, IsContent, IsAscending};
ghost use Rattle.overlay_graph.specs.FillTests.{some_fill_passes, IsFoundUnless};
ghost use Rattle.overlay_graph.specs.Starts.{plain_starts, wound_entries, windings_below, IsSweepable};
ghost use Rattle.overlay_graph.specs.Starts.{numbered_at, AreByStart, AreAboveTheOneBefore};

use crate::fill_test::{FillTest, NoTest};
use crate::starts::places_by_start;
use crate::windings::{Windings, bits_between};
use overlay_geom::edge_pair::is_same;
use overlay_geom::fill_rule::FillRule;
use overlay_geom::number::IntNumber;
use overlay_order::count::EdgeCount;
use overlay_order::edge::CountedEdge;
use overlay_order::vector::SideFill;
use overlay_scan::scan::Scan;
use std::alloc::{AllocError, Allocator};

/// Returns the filled sides of every edge, in the order of the edges. The scan is empty at first; its content
/// afterwards is left open.
pub fn fills_by_sweep<I: IntNumber, C: EdgeCount, A: Allocator + Clone, S: Scan<I, Windings>>(
    alloc: A,
    scan: &mut S,
    edges: &[CountedEdge<I, C>],
    rule: FillRule,
) -> Result<Vec<SideFill, A>, AllocError>
    requires content { IsContent I.limit (plain_edges I.whole C.counts edges.now) }
    requires ascending { IsAscending (plain_edges I.whole C.counts edges.now) }
    requires settled { IsSettled (plain_edges I.whole C.counts edges.now) }
    requires balanced { HasBalancedCounts (plain_edges I.whole C.counts edges.now) }
    requires empty { S.content scan.old ≡ empty_sweep }
    ensures ok { let es = plain_edges I.whole C.counts edges.now in
        IfOk result (λ v. v.items ≡ map (fill_bits rule es) es) }
{
    let mut fills = Vec::new(alloc.clone()?);
    fills.resize(edges.len(), 0)?;
    fill_unless(alloc, scan, edges, rule, NoTest, &mut fills)?;
    Ok(fills)
}

/// Returns the filled sides of every edge, in the order of the edges, unless those of some edge pass the test. It stops
/// at the first edge that passes. The scan is empty at first; its content afterwards is left open.
pub(crate) fn fills_by_sweep_unless<
    I: IntNumber,
    C: EdgeCount,
    A: Allocator + Clone,
    S: Scan<I, Windings>,
    T: FillTest,
>(
    alloc: A,
    scan: &mut S,
    edges: &[CountedEdge<I, C>],
    rule: FillRule,
    test: T,
) -> Result<Option<Vec<SideFill, A>>, AllocError>
    requires content { IsContent I.limit (plain_edges I.whole C.counts edges.now) }
    requires ascending { IsAscending (plain_edges I.whole C.counts edges.now) }
    requires settled { IsSettled (plain_edges I.whole C.counts edges.now) }
    requires balanced { HasBalancedCounts (plain_edges I.whole C.counts edges.now) }
    requires empty { S.content scan.old ≡ empty_sweep }
    ensures ok { let es = plain_edges I.whole C.counts edges.now in IfOk result
        (IsFoundUnless (some_fill_passes (T.passing test) rule es) (λ v. v.items ≡ map (fill_bits rule es) es)) }
{
    let mut fills = Vec::new(alloc.clone()?);
    fills.resize(edges.len(), 0)?;
    let is_told = fill_unless(alloc, scan, edges, rule, test, &mut fills)?;
    Ok(if is_told { None } else { Some(fills) })
}

/// Writes the filled sides of the edges to their places in the list, unless those of some edge pass the test. It stops
/// at the first edge that passes, and returns whether there is such an edge.
fn fill_unless<I: IntNumber, C: EdgeCount, A: Allocator + Clone, S: Scan<I, Windings>, T: FillTest>(
    alloc: A,
    scan: &mut S,
    edges: &[CountedEdge<I, C>],
    rule: FillRule,
    test: T,
    fills: &mut [SideFill],
) -> Result<bool, AllocError>
    requires content { IsContent I.limit (plain_edges I.whole C.counts edges.now) }
    requires ascending { IsAscending (plain_edges I.whole C.counts edges.now) }
    requires settled { IsSettled (plain_edges I.whole C.counts edges.now) }
    requires balanced { HasBalancedCounts (plain_edges I.whole C.counts edges.now) }
    requires empty { S.content scan.old ≡ empty_sweep }
    requires counted { length fills.old ≡ length edges.now }
    ensures told { IfOk result
        (λ t. t ≡ some_fill_passes (T.passing test) rule (plain_edges I.whole C.counts edges.now)) }
    ensures filled { let es = plain_edges I.whole C.counts edges.now in
        IfOk result (λ t. t ≡ false → fills.new ≡ map (fill_bits rule es) es) }
{
    let starting = places_by_start(alloc, edges)?;
    fill_in_turn(scan, edges, &starting, rule, test, fills)
}

/// Writes the filled sides of the edges as `fill_unless` does. The sweep comes to the edges in the order of `starting`,
/// their places.
fn fill_in_turn<I: IntNumber, C: EdgeCount, S: Scan<I, Windings>, T: FillTest>(
    scan: &mut S,
    edges: &[CountedEdge<I, C>],
    starting: &[usize],
    rule: FillRule,
    test: T,
    fills: &mut [SideFill],
) -> Result<bool, AllocError>
    requires content { IsContent I.limit (plain_edges I.whole C.counts edges.now) }
    requires ascending { IsAscending (plain_edges I.whole C.counts edges.now) }
    requires settled { IsSettled (plain_edges I.whole C.counts edges.now) }
    requires balanced { HasBalancedCounts (plain_edges I.whole C.counts edges.now) }
    requires starts { let es = plain_edges I.whole C.counts edges.now in
        AreByStart es (numbered_at es starting.now) }
    requires empty { S.content scan.old ≡ empty_sweep }
    requires counted { length fills.old ≡ length edges.now }
    ensures told { IfOk result
        (λ t. t ≡ some_fill_passes (T.passing test) rule (plain_edges I.whole C.counts edges.now)) }
    ensures filled { let es = plain_edges I.whole C.counts edges.now in
        IfOk result (λ t. t ≡ false → fills.new ≡ map (fill_bits rule es) es) }
{
    let mut above = Windings { subj: 0, clip: 0 };
    for i in 0..starting.len() {
        let fill = next_fill(scan, edges, starting, i, &mut above, rule)?;
        if test.passes(fill) {
            return Ok(true);
        }
        fills[starting[i]] = fill;
    }
    Ok(false)
}

/// Returns the filled sides of the next edge of the sweep, and inserts it with the windings above it unless it is
/// vertical. `above` holds the windings above the edge before, and then those above this edge.
fn next_fill<I: IntNumber, C: EdgeCount, S: Scan<I, Windings>>(
    scan: &mut S,
    edges: &[CountedEdge<I, C>],
    starting: &[usize],
    i: usize,
    above: &mut Windings,
    rule: FillRule,
) -> Result<SideFill, AllocError>
    requires edges { IsSweepable I.limit (plain_starts I.whole C.counts edges.now starting.now) }
    requires places { All (λ k. k < length edges.now) starting.now }
    requires within { i < length starting.now }
    requires swept { let fs = plain_starts I.whole C.counts edges.now starting.now in
        (e : _) → slice_index_or fs i e ≡ e → IsSwept I.limit e.a.x (take i (wound_entries fs)) (S.content scan.old) }
    requires before { AreAboveTheOneBefore (plain_starts I.whole C.counts edges.now starting.now) i above.old }
    ensures swept { let fs = plain_starts I.whole C.counts edges.now starting.now in
        OnOk result ((e : _) → slice_index_or fs i e ≡ e
        → IsSwept I.limit e.a.x (take (i + 1) (wound_entries fs)) (S.content scan.new)) }
    ensures above { OnOk result
        (AreAboveTheOneBefore (plain_starts I.whole C.counts edges.now starting.now) (i + 1) above.new) }
    ensures fill { let fs = plain_starts I.whole C.counts edges.now starting.now in
        IfOk result (λ n. (e : _) → slice_index_or fs i e ≡ e → n ≡ fill_bits rule fs e) }
{
    let next = &edges[starting[i]];
    let below = windings_below(scan, edges, starting, i, *above);
    *above = below.beyond(next);
    if next.a.x.compare(next.b.x).is_lt() {
        let Ok(()) = scan.insert([next.a, next.b], *above, next.a.x) else {
            return Err(AllocError);
        };
    }
    Ok(bits_between(below, *above, rule))
}

/// Returns the windings below the next edge of the sweep: those above the edge before where both start in one point,
/// else those that the scan finds.
fn windings_below<I: IntNumber, C: EdgeCount, S: Scan<I, Windings>>(
    scan: &mut S,
    edges: &[CountedEdge<I, C>],
    starting: &[usize],
    i: usize,
    above: Windings,
) -> Windings
    requires edges { IsSweepable I.limit (plain_starts I.whole C.counts edges.now starting.now) }
    requires places { All (λ k. k < length edges.now) starting.now }
    requires within { i < length starting.now }
    requires swept { let fs = plain_starts I.whole C.counts edges.now starting.now in
        (e : _) → slice_index_or fs i e ≡ e → IsSwept I.limit e.a.x (take i (wound_entries fs)) (S.content scan.old) }
    requires before { AreAboveTheOneBefore (plain_starts I.whole C.counts edges.now starting.now) i above }
    ensures swept { let fs = plain_starts I.whole C.counts edges.now starting.now in
        (e : _) → slice_index_or fs i e ≡ e → IsSwept I.limit e.a.x (take i (wound_entries fs)) (S.content scan.new) }
    ensures below { let fs = plain_starts I.whole C.counts edges.now starting.now in
        (e : _) → slice_index_or fs i e ≡ e → result ≡ windings_below fs e }
{
    let next = &edges[starting[i]];
    if i > 0 && is_same(edges[starting[i - 1]].a, next.a) {
        return above;
    }
    let outside = Windings { subj: 0, clip: 0 };
    scan.first_less(next.a.x, outside, [next.a, next.b])
}
