//! Edges of an arrangement as arrays, with the given edges that each comes from.

ghost use Rattle.std.specs.Prelude.{◌≡◌, ◌∷◌, ◌++◌, [], IfOk, OnOk};
ghost use Rattle.overlay_traced.specs.Told.{AreTold, traced_arrays};
ghost use Rattle.overlay_vector.specs.DataVectors.{plain_data_vector, plain_data_vectors};

use crate::mark::Mark;
use crate::naming::push_sources;
use crate::source::Source;
use overlay_geom::number::IntNumber;
use overlay_order::vector::DataVectorEdge;
use std::alloc::{AllocError, Global};

/// Edges of an arrangement as arrays.
#[derive(Drop)]
pub struct TracedEdges<I> {
    /// Of each edge the coordinates of both ends, x before y.
    pub coordinates: Vec<I, Global>,
    /// The fill bits of each edge.
    pub fills: Vec<u8, Global>,
    /// How many sources there are up to the end of each edge.
    pub source_ends: Vec<usize, Global>,
    /// The given edges on which the edges lie, edge by edge.
    pub sources: Vec<Source, Global>,
}

/// The edges as arrays. It is refused where memory is, and where it was refused when a mark was made.
pub(crate) fn told_edges<'a, I: IntNumber>(
    alloc: Global,
    edges: &[DataVectorEdge<I, Mark<'a>>],
) -> Result<TracedEdges<I>, AllocError>
    ensures { IfOk result (λ t. AreTold I.whole (plain_data_vectors I.whole edges.now)
        (traced_arrays t.coordinates.items t.fills.items t.source_ends.items t.sources.items)) }
{
    let mut told = TracedEdges {
        coordinates: Vec::new(alloc),
        fills: Vec::new(alloc),
        source_ends: Vec::new(alloc),
        sources: Vec::new(alloc),
    };
    for edge in edges {
        push_told(&mut told, edge)?;
    }
    Ok(told)
}

// Adds the edge, and the given edges that it comes from.
fn push_told<'a, I: IntNumber>(
    told: &mut TracedEdges<I>,
    edge: &DataVectorEdge<I, Mark<'a>>,
) -> Result<(), AllocError>
    ensures { OnOk result ((vs : _) → AreTold I.whole vs
        (traced_arrays told.old.coordinates.items told.old.fills.items told.old.source_ends.items
        told.old.sources.items) → AreTold I.whole (vs ++ plain_data_vector I.whole edge.now ∷ [])
        (traced_arrays told.new.coordinates.items told.new.fills.items told.new.source_ends.items
        told.new.sources.items)) }
{
    told.coordinates.push(edge.a.x)?;
    told.coordinates.push(edge.a.y)?;
    told.coordinates.push(edge.b.x)?;
    told.coordinates.push(edge.b.y)?;
    told.fills.push(edge.fill)?;
    push_sources(&mut told.sources, edge.edge_data)?;
    told.source_ends.push(told.sources.len())?;
    Ok(())
}
