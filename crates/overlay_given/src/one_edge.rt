//! The filled sides of the pieces of one edge, found without those of other edges.

ghost use Rattle.std.specs.Prelude.{◌↔◌, ◌<◌, [], length, All, IsTrue, IfOk};
ghost use Rattle.overlay_geom.specs.Rules.{is_filled};
ghost use Rattle.overlay_plane.specs.Balance.{HasBalancedCounts};
ghost use Rattle.overlay_order.specs.Content.{plain_edges, IsHeld, IsAscending};
ghost use Rattle.overlay_pairs.specs.Places.{IsAt};
ghost use Rattle.overlay_given.specs.First.{PassesOn};
ghost use Rattle.overlay_given.specs.Walk.{AddsSides};

use crate::sides::{FilledSides, SideTest, some_pass};
use crate::start::windings_at_start;
use crate::walk::push_sides;
use overlay_exact::exact_int::ExactInt;
use overlay_exact::meetings::find_met_of;
use overlay_geom::fill_rule::FillRule;
use overlay_order::count::EdgeCount;
use overlay_order::edge::CountedEdge;
use std::alloc::{AllocError, Allocator};

/// Returns the sides that the shapes fill beside the pieces of the edge at place i, in their order along it. It looks
/// at all edges.
pub(crate) fn sides_on<I: ExactInt, C: EdgeCount, A: Allocator + Clone>(
    alloc: A,
    edges: &[CountedEdge<I, C>],
    i: usize,
    rule: FillRule,
) -> Result<Vec<FilledSides, A>, AllocError>
    requires held { All (IsHeld I.limit) (plain_edges I.whole C.counts edges.now) }
    requires ascending { IsAscending (plain_edges I.whole C.counts edges.now) }
    requires balanced { HasBalancedCounts (plain_edges I.whole C.counts edges.now) }
    requires within { i < length edges.now }
    ensures ok { IfOk result (λ v. (e : _) → IsAt (plain_edges I.whole C.counts edges.now) i e
        → AddsSides (is_filled rule) (plain_edges I.whole C.counts edges.now) e [] v.items) }
{
    let met = find_met_of(alloc.clone()?, edges, i)?;
    let mut pieces = Vec::new(alloc.clone()?);
    let mut places = Vec::new(alloc);
    let start = windings_at_start(edges, &edges[i]);
    push_sides(&mut pieces, &mut places, edges, i, start, &met, rule)?;
    Ok(pieces)
}

/// Returns whether the sides of some piece of the edge at place i pass the test. Behind the last edge is none. It looks
/// at all edges.
pub(crate) fn edge_passes<I: ExactInt, C: EdgeCount, A: Allocator + Clone>(
    alloc: A,
    edges: &[CountedEdge<I, C>],
    i: usize,
    rule: FillRule,
    test: SideTest,
) -> Result<bool, AllocError>
    requires held { All (IsHeld I.limit) (plain_edges I.whole C.counts edges.now) }
    requires ascending { IsAscending (plain_edges I.whole C.counts edges.now) }
    requires balanced { HasBalancedCounts (plain_edges I.whole C.counts edges.now) }
    ensures ok { IfOk result (λ b. IsTrue b
        ↔ PassesOn test (is_filled rule) (plain_edges I.whole C.counts edges.now) i) }
{
    if i >= edges.len() {
        return Ok(false);
    }
    let sides = sides_on(alloc, edges, i, rule)?;
    Ok(some_pass(&sides, test))
}
