//! Closed contours of edges with data, in which edges that go straight on are joined.

ghost use Rattle.std.specs.Prelude.{◌≡◌, ◌↔◌, ◌∷◌, ◌++◌, [], All, IfOk, OnOk, IsTrue};
ghost use Rattle.overlay_vector.specs.DataVectors.{plain_data_vector, plain_data_vectors};
ghost use Rattle.overlay_vector.specs.Joining.{joined, AreJoinable, IsJoined, NoneJoinable};
ghost use Rattle.overlay_vector.specs.Joining.{IsInRange, IsAppended};

use crate::path::DataVectorPath;
use overlay_geom::number::{IntNumber, WideIntNumber};
use overlay_geom::vector::cross_at;
use overlay_order::data::OverlayEdgeData;
use overlay_order::edge::compare_points;
use overlay_order::vector::DataVectorEdge;
use std::alloc::{AllocError, Allocator};

/// The closed contour with edges joined: each that goes straight on from the one before it, with equal filled sides and
/// equal data, until none is left that can be. The first edge may be joined with the last. A joined edge has the data
/// of the first of its edges.
pub(crate) fn joined<I: IntNumber, D: OverlayEdgeData, A: Allocator>(
    alloc: A,
    vectors: &[DataVectorEdge<I, D>],
) -> Result<DataVectorPath<I, D, A>, AllocError>
    requires { All (IsInRange I.limit) (plain_data_vectors I.whole vectors.now) }
    ensures joined { IfOk result (λ v.
        IsJoined D.eq (plain_data_vectors I.whole vectors.now) (plain_data_vectors I.whole v.items)) }
{
    let mut path = Vec::new(alloc);
    for vector in vectors {
        append(&mut path, *vector)?;
    }
    join_ends(&mut path)?;
    Ok(path)
}

// Joins the last edge with the first one while they can be joined.
fn join_ends<I: IntNumber, D: OverlayEdgeData, A: Allocator>(
    path: &mut DataVectorPath<I, D, A>,
) -> Result<(), AllocError>
    requires inside { NoneJoinable D.eq (plain_data_vectors I.whole path.old.items) }
    requires in_range { All (IsInRange I.limit) (plain_data_vectors I.whole path.old.items) }
    ensures joined { OnOk result
        (IsJoined D.eq (plain_data_vectors I.whole path.old.items) (plain_data_vectors I.whole path.new.items)) }
{
    while path.len() >= 2 {
        let first = path[0];
        let last = path[path.len() - 1];
        if !are_joinable(last, first) {
            return Ok(());
        }
        path.pop();
        path.remove(0);
        append(path, join(last, first))?;
    }
    Ok(())
}

// Adds the edge behind the others, joined with the last ones as far as it can be.
fn append<I: IntNumber, D: OverlayEdgeData, A: Allocator>(
    path: &mut DataVectorPath<I, D, A>,
    vector: DataVectorEdge<I, D>,
) -> Result<(), AllocError>
    requires inside { NoneJoinable D.eq (plain_data_vectors I.whole path.old.items) }
    requires in_range { All (IsInRange I.limit) (plain_data_vectors I.whole path.old.items) }
    requires vector { IsInRange I.limit (plain_data_vector I.whole vector) }
    ensures ok { OnOk result (IsAppended D.eq I.limit (plain_data_vectors I.whole path.old.items)
        (plain_data_vector I.whole vector) (plain_data_vectors I.whole path.new.items)) }
{
    let vector = join_back(path, vector);
    path.push(vector)?;
    Ok(())
}

// Takes off the last edges as far as they can be joined with the edge, and gives the joined one.
fn join_back<I: IntNumber, D: OverlayEdgeData, A: Allocator>(
    path: &mut DataVectorPath<I, D, A>,
    vector: DataVectorEdge<I, D>,
) -> DataVectorEdge<I, D>
    requires inside { NoneJoinable D.eq (plain_data_vectors I.whole path.old.items) }
    requires in_range { All (IsInRange I.limit) (plain_data_vectors I.whole path.old.items) }
    requires vector { IsInRange I.limit (plain_data_vector I.whole vector) }
    ensures { IsAppended D.eq I.limit (plain_data_vectors I.whole path.old.items) (plain_data_vector I.whole vector)
        (plain_data_vectors I.whole path.new.items ++ plain_data_vector I.whole result ∷ []) }
{
    let mut vector = vector;
    while path.len() >= 1 {
        let last = path[path.len() - 1];
        if !are_joinable(last, vector) {
            return vector;
        }
        path.pop();
        vector = join(last, vector);
    }
    vector
}

// Whether the second edge goes straight on from the first one, with equal filled sides and equal data.
fn are_joinable<I: IntNumber, D: OverlayEdgeData>(
    v: DataVectorEdge<I, D>,
    w: DataVectorEdge<I, D>,
) -> bool
    requires first { IsInRange I.limit (plain_data_vector I.whole v) }
    requires second { IsInRange I.limit (plain_data_vector I.whole w) }
    ensures { IsTrue result ↔ AreJoinable D.eq (plain_data_vector I.whole v) (plain_data_vector I.whole w) }
{
    compare_points(w.a, v.b).is_eq()
        && cross_at(v.a, v.b, w.b).sign().is_eq()
        && w.fill == v.fill
        && have_equal_data(v, w)
}

// Whether both edges have equal data.
fn have_equal_data<I: IntNumber, D: OverlayEdgeData>(
    v: DataVectorEdge<I, D>,
    w: DataVectorEdge<I, D>,
) -> bool
    ensures { result ≡ D.eq v.edge_data w.edge_data }
{
    v.edge_data == w.edge_data
}

// One edge for both, with the data of the first.
fn join<I: IntNumber, D: OverlayEdgeData>(
    v: DataVectorEdge<I, D>,
    w: DataVectorEdge<I, D>,
) -> DataVectorEdge<I, D>
    ensures { plain_data_vector I.whole result ≡ joined (plain_data_vector I.whole v) (plain_data_vector I.whole w) }
{
    DataVectorEdge { b: w.b, ..v }
}
