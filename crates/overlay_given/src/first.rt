//! Answers that the first edges of two shapes tell.

ghost use Rattle.std.specs.Prelude.{◌≡◌, ◌↔◌, All, IsTrue, IfOk};
ghost use Rattle.overlay_geom.specs.Rules.{is_filled};
ghost use Rattle.overlay_plane.specs.Balance.{HasBalancedCounts};
ghost use Rattle.overlay_order.specs.Content.{plain_edge, plain_edges, IsHeld, IsAscending};
ghost use Rattle.overlay_given.specs.First.{count_of, IsFirstOf, SomeFirstPasses};

use crate::one_edge::edge_passes;
use crate::sides::SideTest;
use overlay_exact::exact_int::ExactInt;
use overlay_geom::fill_rule::FillRule;
use overlay_geom::number::IntNumber;
use overlay_geom::options::ShapeType;
use overlay_order::count::EdgeCount;
use overlay_order::edge::CountedEdge;
use std::alloc::{AllocError, Allocator};

/// Returns whether the sides of some piece pass the test: of the first edge that the subject passes, or of the first
/// that the clip passes. The edges ascend, with balanced counts. It looks at all edges. The error is that memory is
/// refused.
pub fn some_first_passes<I: ExactInt, C: EdgeCount, A: Allocator + Clone>(
    alloc: A,
    edges: &[CountedEdge<I, C>],
    rule: FillRule,
    test: SideTest,
) -> Result<bool, AllocError>
    requires held { All (IsHeld I.limit) (plain_edges I.whole C.counts edges.now) }
    requires ascending { IsAscending (plain_edges I.whole C.counts edges.now) }
    requires balanced { HasBalancedCounts (plain_edges I.whole C.counts edges.now) }
    ensures ok { IfOk result (λ b. IsTrue b
        ↔ SomeFirstPasses test (is_filled rule) (plain_edges I.whole C.counts edges.now)) }
{
    let subj = first_of(edges, ShapeType::Subject);
    let passes = edge_passes(alloc.clone()?, edges, subj, rule, test)?;
    if passes {
        return Ok(true);
    }
    let clip = first_of(edges, ShapeType::Clip);
    edge_passes(alloc, edges, clip, rule, test)
}

// Returns the place of the first edge that the shape passes, or the number of edges.
fn first_of<I: IntNumber, C: EdgeCount>(edges: &[CountedEdge<I, C>], shape: ShapeType) -> usize
    ensures { IsFirstOf shape (plain_edges I.whole C.counts edges.now) result }
{
    for i in 0..edges.len() {
        if count_of(&edges[i], shape) != 0 {
            return i;
        }
    }
    edges.len()
}

// Returns how often the shape passes the edge.
fn count_of<I: IntNumber, C: EdgeCount>(edge: &CountedEdge<I, C>, shape: ShapeType) -> i32
    ensures { result ≡ count_of shape (plain_edge I.whole C.counts edge.now) }
{
    match shape {
        ShapeType::Subject => edge.count.subj(),
        ShapeType::Clip => edge.count.clip(),
    }
}
