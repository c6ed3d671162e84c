//! The filled sides of edges.

ghost use Rattle.std.specs.Prelude.{◌≡◌, map, IfOk};
ghost use Rattle.overlay_geom.specs.Settled.{IsSettled};
ghost use Rattle.overlay_geom.specs.Rules.{fill_bits};
ghost use Rattle.overlay_plane.specs.Balance.{HasBalancedCounts};
ghost use Rattle.overlay_order.specs.Content.{plain_edges, IsContent, IsAscending};
ghost use Rattle.overlay_graph.specs.FillTests.{some_fill_passes, IsFoundUnless};

use crate::balance::is_balanced;
use crate::fill_rays::fills_by_rays;
use crate::fill_sweep::{fills_by_sweep, fills_by_sweep_unless};
use crate::fill_test::FillTest;
use overlay_geom::fill_rule::FillRule;
use overlay_geom::number::IntNumber;
use overlay_order::count::EdgeCount;
use overlay_order::edge::CountedEdge;
use overlay_order::vector::SideFill;
use overlay_scan::tree::either::EitherScan;
use std::alloc::{AllocError, Allocator};

/// Returns the filled sides of every edge of an arrangement, in the order of the edges.
pub fn fills<I: IntNumber, C: EdgeCount, A: Allocator + Clone>(
    alloc: A,
    edges: &[CountedEdge<I, C>],
    rule: FillRule,
) -> Result<Vec<SideFill, A>, AllocError>
    requires content { IsContent I.limit (plain_edges I.whole C.counts edges.now) }
    requires ascending { IsAscending (plain_edges I.whole C.counts edges.now) }
    requires settled { IsSettled (plain_edges I.whole C.counts edges.now) }
    ensures ok { let es = plain_edges I.whole C.counts edges.now in
        IfOk result (λ v. v.items ≡ map (fill_bits rule es) es) }
{
    let balanced = is_balanced(alloc.clone()?, edges)?;
    if balanced {
        fills_of_balanced(alloc, edges, rule)
    } else {
        // Edges may carry any counts; without balance no sweep tells the winding below an edge.
        fills_by_rays(alloc, edges, rule)
    }
}

/// Returns the filled sides of edges with balanced counts, such as those of closed contours. It does not test the
/// balance.
pub fn fills_of_balanced<I: IntNumber, C: EdgeCount, A: Allocator + Clone>(
    alloc: A,
    edges: &[CountedEdge<I, C>],
    rule: FillRule,
) -> Result<Vec<SideFill, A>, AllocError>
    requires content { IsContent I.limit (plain_edges I.whole C.counts edges.now) }
    requires ascending { IsAscending (plain_edges I.whole C.counts edges.now) }
    requires settled { IsSettled (plain_edges I.whole C.counts edges.now) }
    requires balanced { HasBalancedCounts (plain_edges I.whole C.counts edges.now) }
    ensures ok { let es = plain_edges I.whole C.counts edges.now in
        IfOk result (λ v. v.items ≡ map (fill_bits rule es) es) }
{
    let mut scan = EitherScan::default(alloc.clone()?);
    fills_by_sweep(alloc, &mut scan, edges, rule)
}

/// Returns the filled sides of edges with balanced counts, unless those of some edge pass the test. It stops at the
/// first edge that passes, and does not test the balance.
pub(crate) fn fills_of_balanced_unless<
    I: IntNumber,
    C: EdgeCount,
    A: Allocator + Clone,
    T: FillTest,
>(
    alloc: A,
    edges: &[CountedEdge<I, C>],
    rule: FillRule,
    test: T,
) -> Result<Option<Vec<SideFill, A>>, AllocError>
    requires content { IsContent I.limit (plain_edges I.whole C.counts edges.now) }
    requires ascending { IsAscending (plain_edges I.whole C.counts edges.now) }
    requires settled { IsSettled (plain_edges I.whole C.counts edges.now) }
    requires balanced { HasBalancedCounts (plain_edges I.whole C.counts edges.now) }
    ensures ok { let es = plain_edges I.whole C.counts edges.now in IfOk result
        (IsFoundUnless (some_fill_passes (T.passing test) rule es) (λ v. v.items ≡ map (fill_bits rule es) es)) }
{
    let mut scan = EitherScan::default(alloc.clone()?);
    fills_by_sweep_unless(alloc, &mut scan, edges, rule, test)
}
