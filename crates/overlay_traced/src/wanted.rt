//! The edges that are wanted of the arrangement of given edges, with their data.

ghost use Rattle.std.specs.Prelude.{◌≡◌, All, IfErr, IfOk, map};
ghost use Rattle.overlay_geom.specs.Settled.{IsSettled};
ghost use Rattle.overlay_order.specs.Content.{IsAscending};
ghost use Rattle.overlay_plane.specs.Carried.{edges_in};
ghost use Rattle.overlay_vector.specs.DataVectors.{plain_data_vectors};
ghost use Rattle.overlay_vector.specs.EdgeBuilder.{IsArrangedWithData};
ghost use Rattle.overlay_traced.specs.Given.{IsGivenInRange, held_edges, plain_given};
ghost use Rattle.overlay_traced.specs.Traced.{AreWanted, MayRefuseWanted, wanted_vectors};

use crate::given::{GivenData, GivenEdge, add_given};
use overlay_arrange::content::Content;
use overlay_geom::error::OverlayError;
use overlay_geom::fill_rule::FillRule;
use overlay_geom::number::IntNumber;
use overlay_geom::overlay_rule::OverlayRule;
use overlay_geom::solver::Solver;
use overlay_order::data::{CountWithData, OverlayEdgeData};
use overlay_order::vector::DataVectorEdge;
use overlay_vector::graph_vectors::graph_vectors;
use overlay_vector::selected_vectors::selected_vectors;
use std::alloc::{AllocError, Global};

/// Returns the wanted edges of the arrangement of the given ones: those where the rule holds on exactly one side, or
/// all. Each has its filled sides and its data.
pub(crate) fn wanted_edges<I: IntNumber, D: GivenData>(
    alloc: Global,
    edges: &[GivenEdge<I>],
    wanted: Option<OverlayRule>,
    fill: FillRule,
    solver: Solver,
    store: &mut D::Store,
) -> Result<Vec<DataVectorEdge<I, D>, Global>, OverlayError>
    requires { All (IsGivenInRange I.whole I.limit) edges.now }
    ensures wanted { IfOk result (λ v. AreWanted D.merges D.splits D.reverses solver fill wanted
        (held_edges D.given (map (plain_given I.whole) edges.now)) (plain_data_vectors I.whole v.items)) }
    ensures err { IfErr result (MayRefuseWanted solver
        (edges_in (held_edges D.given (map (plain_given I.whole) edges.now)))) }
{
    let content = arranged::<I, D>(alloc, edges, solver, store)?;
    let vectors = wanted_of(&content, wanted, fill)?;
    Ok(vectors)
}

/// Returns the arrangement of the edges, with their data.
#[tactic(auto, using(crate::proofs::Refusing::adding_refused, crate::proofs::Refusing::splitting_refused))]
pub(crate) fn arranged<I: IntNumber, D: GivenData>(
    alloc: Global,
    edges: &[GivenEdge<I>],
    solver: Solver,
    store: &mut D::Store,
) -> Result<Content<I, CountWithData<D>, Global>, OverlayError>
    requires { All (IsGivenInRange I.whole I.limit) edges.now }
    ensures arranged { IfOk result (λ xs. IsArrangedWithData D.merges D.splits D.reverses solver
        (held_edges D.given (map (plain_given I.whole) edges.now)) xs) }
    ensures ascending { IfOk result (λ xs. IsAscending (edges_in xs)) }
    ensures settled { IfOk result (λ xs. IsSettled (edges_in xs)) }
    ensures err { IfErr result (MayRefuseWanted solver
        (edges_in (held_edges D.given (map (plain_given I.whole) edges.now)))) }
{
    let mut content = Content::with_capacity(alloc, edges.len())?;
    add_given(&mut content, edges)?;
    content.arrange(solver, store)?;
    Ok(content)
}

// The edges that are wanted of an arrangement.
fn wanted_of<I: IntNumber, D: OverlayEdgeData>(
    content: &Content<I, CountWithData<D>, Global>,
    wanted: Option<OverlayRule>,
    fill: FillRule,
) -> Result<Vec<DataVectorEdge<I, D>, Global>, AllocError>
    requires ascending { IsAscending (edges_in content.now) }
    requires settled { IsSettled (edges_in content.now) }
    ensures { IfOk result (λ v. plain_data_vectors I.whole v.items ≡ wanted_vectors fill wanted content.now) }
{
    let graph = content.graph(fill)?;
    match wanted {
        None => graph_vectors(&graph),
        Some(rule) => selected_vectors(&graph, rule),
    }
}
