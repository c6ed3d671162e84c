//! All edges of a graph, with their filled sides and data.

ghost use Rattle.std.specs.Prelude.{◌≡◌, map, IfOk};
ghost use Rattle.overlay_vector.specs.DataVectors.{graph_vectors, plain_data_vectors};
ghost use Rattle.overlay_vector.specs.ListedVectors.{uncounted};

use crate::selected_vectors::with_data;
use overlay_geom::number::IntNumber;
use overlay_graph::graph::Graph;
use overlay_order::data::{CountWithData, OverlayEdgeData};
use overlay_order::vector::DataVectorEdge;
use std::alloc::{AllocError, Allocator};

/// Every edge of the graph, in their order, each with its filled sides, seen from its smaller to its larger end, and
/// its data.
pub fn graph_vectors<I: IntNumber, D: OverlayEdgeData, A: Allocator + Clone>(
    graph: &Graph<I, CountWithData<D>, A>,
) -> Result<Vec<DataVectorEdge<I, D>, A>, AllocError>
    ensures listed { IfOk result (λ v. plain_data_vectors I.whole v.items
        ≡ graph_vectors graph.now.fill_rule graph.now.edges) }
{
    all_with_data(graph.allocator().clone()?, graph.edges())
}

// The edges with their data alone.
fn all_with_data<I: IntNumber, D: Copy, A: Allocator>(
    alloc: A,
    edges: &[DataVectorEdge<I, CountWithData<D>>],
) -> Result<Vec<DataVectorEdge<I, D>, A>, AllocError>
    ensures ok { IfOk result (λ v. plain_data_vectors I.whole v.items ≡ map (uncounted I.whole) edges.now) }
{
    let mut vectors = Vec::with_capacity(alloc, edges.len())?;
    for edge in edges {
        vectors.push(with_data(*edge))?;
    }
    Ok(vectors)
}
