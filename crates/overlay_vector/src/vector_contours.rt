//! Contours as edges with filled sides and data, put together to shapes.

ghost use Rattle.std.specs.Prelude.{◌≡◌, ◌<◌, cond, length, map, All, MatchBool, IfOk};
ghost use Rattle.std.specs.List.{AllZip};
ghost use Rattle.overlay_geom.specs.Edges.{all_ends};
ghost use Rattle.overlay_geom.specs.Plane.{is_forward};
ghost use Rattle.overlay_plane.specs.PlacedContours.{walk_at, walks_at};
ghost use Rattle.overlay_graph.specs.Graphs.{graph_edges};
ghost use Rattle.overlay_parts.specs.Stores.{IsStoreReached};
ghost use Rattle.overlay_extract.specs.Places.{place_list, place_lists, AreInside};
ghost use Rattle.overlay_walk.specs.GroupedContours.{plain_contours};
ghost use Rattle.overlay_walk.specs.Steps.{plain_step, plain_steps, RunsAlong};
ghost use Rattle.overlay_vector.specs.DataVectors.{plain_data_vector, plain_data_vectors};
ghost use Rattle.overlay_vector.specs.Joining.{IsInRange};
ghost use Rattle.overlay_vector.specs.SideFills.{turned_fill};
ghost use Rattle.overlay_vector.specs.VectorShapes.{plain_vector_shape, plain_vector_shapes, IsVectorAlong};
ghost use Rattle.overlay_vector.specs.VectorShapes.{IsVectorContour, AreVectorContours};

use crate::joining::joined;
use crate::path::{DataVectorPath, DataVectorShape};
use crate::side_fill::Reverse;
use overlay_extract::binding::places::ShapePlaces;
use overlay_geom::number::IntNumber;
use overlay_graph::graph::Graph;
use overlay_order::data::{CountWithData, OverlayEdgeData};
use overlay_order::vector::DataVectorEdge;
use overlay_walk::contour::Contour;
use overlay_walk::step::{Step, is_forward};
use std::alloc::{AllocError, Allocator};

/// Returns the shapes whose contours, along edges of the graph, stand at these places. Each step has the filled sides
/// and the data of its edge, both turned round where it leads from the larger end; unless edges are to be kept,
/// neighbours are joined.
#[tactic(auto, using(overlay_parts::proofs::ReachedStores::never_written))]
pub fn assembled<I: IntNumber, D: OverlayEdgeData, A: Allocator + Clone>(
    graph: &Graph<I, CountWithData<D>, A>,
    contours: &[Contour<I, A>],
    places: &[ShapePlaces<A>],
    keeps_edges: bool,
    store: &mut D::Store,
) -> Result<Vec<DataVectorShape<I, D, A>, A>, AllocError>
    requires along { All (λ c. All (RunsAlong I.whole (all_ends (graph_edges graph.now))) c.steps.items) contours.now }
    requires inside { AreInside (length (plain_contours I.whole contours.now)) (place_lists places.now) }
    ensures shapes { IfOk result (λ v.
        AreVectorContours D.reverses D.eq graph.now.fill_rule keeps_edges graph.now.edges
        (walks_at (plain_contours I.whole contours.now) (place_lists places.now))
        (plain_vector_shapes I.whole v.items)) }
    ensures store { IsStoreReached D.writes store.old store.new }
{
    let mut shapes = Vec::new(graph.allocator().clone()?);
    for shape in places {
        shapes.push(shape_at(graph, contours, shape, keeps_edges, store)?)?;
    }
    Ok(shapes)
}

// The shape of which the contours stand at these places.
#[tactic(auto, using(overlay_parts::proofs::ReachedStores::never_written))]
fn shape_at<I: IntNumber, D: OverlayEdgeData, A: Allocator + Clone>(
    graph: &Graph<I, CountWithData<D>, A>,
    contours: &[Contour<I, A>],
    places: &ShapePlaces<A>,
    keeps_edges: bool,
    store: &mut D::Store,
) -> Result<DataVectorShape<I, D, A>, AllocError>
    requires along { All (λ c. All (RunsAlong I.whole (all_ends (graph_edges graph.now))) c.steps.items) contours.now }
    requires inside { All (λ k. k < length (plain_contours I.whole contours.now)) (place_list places.now) }
    ensures shape { IfOk result (λ v.
        AllZip (IsVectorContour D.reverses D.eq graph.now.fill_rule keeps_edges graph.now.edges)
        (map (walk_at (plain_contours I.whole contours.now)) (place_list places.now))
        (plain_vector_shape I.whole v.items)) }
    ensures store { IsStoreReached D.writes store.old store.new }
{
    let mut shape = Vec::new(graph.allocator().clone()?);
    for i in 0..places.count() {
        let place = places.place(i);
        shape.push(contour(graph, &contours[place].steps, keeps_edges, store)?)?;
    }
    Ok(shape)
}

// The walk as edges with filled sides and data; unless they are to be kept, neighbours are joined.
fn contour<I: IntNumber, D: OverlayEdgeData, A: Allocator + Clone>(
    graph: &Graph<I, CountWithData<D>, A>,
    walk: &[Step<I>],
    keeps_edges: bool,
    store: &mut D::Store,
) -> Result<DataVectorPath<I, D, A>, AllocError>
    requires { All (RunsAlong I.whole (all_ends (graph_edges graph.now))) walk.now }
    ensures ok { IfOk result (λ v. IsVectorContour D.reverses D.eq graph.now.fill_rule keeps_edges graph.now.edges
        (plain_steps I.whole walk.now) (plain_data_vectors I.whole v.items)) }
    ensures store { IsStoreReached D.writes store.old store.new }
{
    let vectors = vectors_along(graph, walk, store)?;
    if keeps_edges {
        return Ok(vectors);
    }
    joined(graph.allocator().clone()?, &vectors)
}

// The steps of the walk with the filled sides and the data of their edges.
#[tactic(auto, using(overlay_parts::proofs::ReachedStores::never_written))]
fn vectors_along<I: IntNumber, D: OverlayEdgeData, A: Allocator + Clone>(
    graph: &Graph<I, CountWithData<D>, A>,
    walk: &[Step<I>],
    store: &mut D::Store,
) -> Result<DataVectorPath<I, D, A>, AllocError>
    requires { All (RunsAlong I.whole (all_ends (graph_edges graph.now))) walk.now }
    ensures along { IfOk result (λ v. AllZip (IsVectorAlong D.reverses graph.now.fill_rule graph.now.edges)
        (plain_steps I.whole walk.now) (plain_data_vectors I.whole v.items)) }
    ensures in_range { IfOk result (λ v. All (IsInRange I.limit) (plain_data_vectors I.whole v.items)) }
    ensures store { IsStoreReached D.writes store.old store.new }
{
    let mut vectors = Vec::with_capacity(graph.allocator().clone()?, walk.len())?;
    for i in 0..walk.len() {
        vectors.push(vector_along(graph, walk[i], store))?;
    }
    Ok(vectors)
}

// The step with the filled sides and the data of its edge.
fn vector_along<I: IntNumber, D: OverlayEdgeData, A: Allocator>(
    graph: &Graph<I, CountWithData<D>, A>,
    step: Step<I>,
    store: &mut D::Store,
) -> DataVectorEdge<I, D>
    requires { RunsAlong I.whole (all_ends (graph_edges graph.now)) step }
    ensures along { IsVectorAlong D.reverses graph.now.fill_rule graph.now.edges
        (plain_step I.whole step) (plain_data_vector I.whole result) }
    ensures in_range { IsInRange I.limit (plain_data_vector I.whole result) }
    ensures store { IsStoreReached D.writes store.old store.new }
{
    let edges = graph.edges();
    let place = step.edge;
    walked(edges[place], step, store)
}

// The edge as the step walks along it: turned round where it leads from the larger end.
fn walked<I: IntNumber, D: OverlayEdgeData>(
    edge: DataVectorEdge<I, CountWithData<D>>,
    step: Step<I>,
    store: &mut D::Store,
) -> DataVectorEdge<I, D>
    ensures a { result.a ≡ step.from }
    ensures b { result.b ≡ step.to }
    ensures fill { result.fill ≡ cond (is_forward (plain_step I.whole step)) edge.fill (turned_fill edge.fill) }
    ensures carried { MatchBool (is_forward (plain_step I.whole step))
        (result.edge_data ≡ edge.edge_data.edge_data) (D.reverses edge.edge_data.edge_data result.edge_data) }
    ensures writes { MatchBool (is_forward (plain_step I.whole step))
        (store.new ≡ store.old) (D.writes store.old store.new) }
{
    let (a, b) = (step.from, step.to);
    let mut fill = edge.fill;
    let mut edge_data = edge.edge_data.edge_data;
    if !is_forward(&step) {
        fill = fill.reverse();
        edge_data = edge_data.reversed(store);
    }
    DataVectorEdge {
        a,
        b,
        fill,
        edge_data,
    }
}
