//! The edges that bound the shape of an arrangement.

ghost use Rattle.std.specs.Prelude.{◌≡◌, ◌++◌, map, flat_map, All, IfOk, OnOk};
ghost use Rattle.overlay_order.specs.Counts.{has_bit};
ghost use Rattle.overlay_order.specs.Vectors.{plain_vector};
ghost use Rattle.overlay_geom.specs.Rules.{is_filled};
ghost use Rattle.overlay_geom.specs.Resolved.{plain_edges, IsLongEdge};
ghost use Rattle.overlay_graph.specs.Graphs.{graph_edges};
ghost use Rattle.overlay_plane.specs.Balance.{HasBalancedCounts};
ghost use Rattle.overlay_relate.specs.Boundaries.{bounding};
ghost use Rattle.overlay_relate.specs.Bounded.{Bounds};
ghost use Rattle.overlay_relate.specs.Locations.{differ};

use overlay_geom::edge::IntEdge;
use overlay_geom::number::IntNumber;
use overlay_graph::graph::Graph;
use overlay_order::count::EdgeCount;
use overlay_order::vector::{DataVectorEdge, SUBJ_LEFT, SUBJ_RIGHT, SideFill};
use std::alloc::{AllocError, Allocator};

/// Returns the edges with exactly one side filled by the subject, in their order.
pub(crate) fn boundary_of<I: IntNumber, C: EdgeCount, A: Allocator + Clone>(
    alloc: A,
    graph: &Graph<I, C, A>,
) -> Result<Vec<IntEdge<I>, A>, AllocError>
    requires { HasBalancedCounts (graph_edges graph.now) }
    ensures bounds { IfOk result (λ v. Bounds (is_filled graph.now.fill_rule) (graph_edges graph.now)
        (plain_edges I.whole v.items)) }
    ensures long { IfOk result (λ v. All (IsLongEdge I.limit) (plain_edges I.whole v.items)) }
{
    let boundary = bounding_edges(alloc, graph.edges())?;
    Ok(boundary)
}

// The edges whose bits say so.
fn bounding_edges<I: IntNumber, D: Copy, A: Allocator>(
    alloc: A,
    edges: &[DataVectorEdge<I, D>],
) -> Result<Vec<IntEdge<I>, A>, AllocError>
    ensures ok { IfOk result (λ v. plain_edges I.whole v.items
        ≡ flat_map bounding (map (plain_vector I.whole) edges.now)) }
{
    let mut boundary = Vec::new(alloc);
    for number in 0..edges.len() {
        push_bounding(&mut boundary, edges[number])?;
    }
    Ok(boundary)
}

// Adds the edge, if the subject fills exactly one side of it.
fn push_bounding<I: IntNumber, D: Copy, A: Allocator>(
    boundary: &mut Vec<IntEdge<I>, A>,
    edge: DataVectorEdge<I, D>,
) -> Result<(), AllocError>
    ensures ok { OnOk result (plain_edges I.whole boundary.new.items
        ≡ plain_edges I.whole boundary.old.items ++ bounding (plain_vector I.whole edge)) }
{
    if fills_one_side(edge.fill) {
        boundary.push(IntEdge {
            a: edge.a,
            b: edge.b,
        })?;
    }
    Ok(())
}

// Whether the subject fills exactly one side.
fn fills_one_side(fill: SideFill) -> bool
    ensures { result ≡ differ (has_bit fill 0) (has_bit fill 1) }
{
    differ(fill & SUBJ_LEFT != 0, fill & SUBJ_RIGHT != 0)
}

// Whether exactly one of the two is true.
fn differ(s: bool, t: bool) -> bool
    ensures { result ≡ differ s t }
{
    if s { !t } else { t }
}
