//! The selected edges of a graph, with their filled sides and data.

ghost use Rattle.std.specs.Prelude.{◌≡◌, ◌++◌, OnOk, IfOk};
ghost use Rattle.std.specs.List.{flat_map};
ghost use Rattle.overlay_walk.specs.Selection.{bits_select};
ghost use Rattle.overlay_vector.specs.DataVectors.{plain_data_vectors, selected_vectors};
ghost use Rattle.overlay_vector.specs.ListedVectors.{vectors_by_bits};

use overlay_geom::number::IntNumber;
use overlay_geom::overlay_rule::OverlayRule;
use overlay_graph::graph::Graph;
use overlay_order::data::{CountWithData, OverlayEdgeData};
use overlay_order::vector::{
    CLIP_LEFT, CLIP_RIGHT, DataVectorEdge, SUBJ_LEFT, SUBJ_RIGHT, SideFill,
};
use std::alloc::{AllocError, Allocator};

/// Returns the edges of the graph with the region of its rule and the overlay rule on exactly one side, in order. Each
/// has its filled sides, seen from its smaller to its larger end, and its data.
pub fn selected_vectors<I: IntNumber, D: OverlayEdgeData, A: Allocator + Clone>(
    graph: &Graph<I, CountWithData<D>, A>,
    overlay_rule: OverlayRule,
) -> Result<Vec<DataVectorEdge<I, D>, A>, AllocError>
    ensures listed { IfOk result (λ v. plain_data_vectors I.whole v.items
        ≡ selected_vectors graph.now.fill_rule overlay_rule graph.now.edges) }
{
    listed(graph.allocator().clone()?, graph.edges(), overlay_rule)
}

// Those of the edges on exactly one side of which the rule holds.
fn listed<I: IntNumber, D: Copy, A: Allocator>(
    alloc: A,
    edges: &[DataVectorEdge<I, CountWithData<D>>],
    rule: OverlayRule,
) -> Result<Vec<DataVectorEdge<I, D>, A>, AllocError>
    ensures ok { IfOk result (λ v. plain_data_vectors I.whole v.items
        ≡ flat_map (vectors_by_bits I.whole rule) edges.now) }
{
    let mut vectors = Vec::new(alloc);
    for edge in edges {
        push_selected(&mut vectors, *edge, rule)?;
    }
    Ok(vectors)
}

// Adds the edge, with its data, if the rule holds on exactly one side of it.
fn push_selected<I: IntNumber, D: Copy, A: Allocator>(
    vectors: &mut Vec<DataVectorEdge<I, D>, A>,
    edge: DataVectorEdge<I, CountWithData<D>>,
    rule: OverlayRule,
) -> Result<(), AllocError>
    ensures ok { OnOk result (plain_data_vectors I.whole vectors.new.items
        ≡ plain_data_vectors I.whole vectors.old.items ++ vectors_by_bits I.whole rule edge) }
{
    if is_selected(rule, edge.fill) {
        vectors.push(with_data(edge))?;
    }
    Ok(())
}

/// The edge with its data alone.
pub(crate) fn with_data<I: IntNumber, D: Copy>(
    edge: DataVectorEdge<I, CountWithData<D>>,
) -> DataVectorEdge<I, D>
    ensures a { result.a ≡ edge.a }
    ensures b { result.b ≡ edge.b }
    ensures fill { result.fill ≡ edge.fill }
    ensures carried { result.edge_data ≡ edge.edge_data.edge_data }
{
    DataVectorEdge {
        a: edge.a,
        b: edge.b,
        fill: edge.fill,
        edge_data: edge.edge_data.edge_data,
    }
}

// Whether the rule holds on exactly one side of an edge with these fill bits.
fn is_selected(rule: OverlayRule, fill: SideFill) -> bool
    ensures { result ≡ bits_select rule fill }
{
    let above = rule.holds(fill & SUBJ_LEFT != 0, fill & CLIP_LEFT != 0);
    let below = rule.holds(fill & SUBJ_RIGHT != 0, fill & CLIP_RIGHT != 0);
    above != below
}
