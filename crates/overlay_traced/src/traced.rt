//! The edges of an arrangement of given edges, with those that each comes from.

ghost use Rattle.std.specs.Prelude.{All, IfErr, IfOk, map};
ghost use Rattle.overlay_traced.specs.Given.{IsGivenInRange, plain_given};
ghost use Rattle.overlay_traced.specs.Told.{traced_arrays};
ghost use Rattle.overlay_traced.specs.Traced.{AreTraced, MayRefuseTracing};

use crate::first_pass::merged_lists;
use crate::given::GivenEdge;
use crate::lists::SourceLists;
use crate::mark::{Mark, SecondPass};
use crate::told::{TracedEdges, told_edges};
use crate::wanted::wanted_edges;
use overlay_geom::error::OverlayError;
use overlay_geom::fill_rule::FillRule;
use overlay_geom::number::IntNumber;
use overlay_geom::overlay_rule::OverlayRule;
use overlay_geom::solver::Solver;
use overlay_order::vector::DataVectorEdge;
use std::alloc::Global;

/// Returns edges of the arrangement of the given ones, which the solver splits where they meet: those where the wanted
/// rule holds on exactly one side, or all where no rule is wanted. They run from their smaller to their larger ends, in
/// order by these. Each has the sides that the subject and the clip fill under the fill rule, and the given
/// edges that it comes from, in the order in which they were merged. The given edges need not be closed contours; they
/// are numbered from 0. Edges that run there and back between the same ends, as often, leave none.
///
/// The edges are arranged twice. The first pass finds out the lists of given edges that merged edges have, and the
/// second one tests them. All ends are in the coordinate range. Refusals are `TooManyEdges`, `NotSettled` (never with
/// `Solver::SNAPPED`) and `Memory`.
pub fn traced_edges<I: IntNumber>(
    alloc: Global,
    edges: &[GivenEdge<I>],
    wanted: Option<OverlayRule>,
    fill: FillRule,
    solver: Solver,
) -> Result<TracedEdges<I>, OverlayError>
    requires { All (IsGivenInRange I.whole I.limit) edges.now }
    ensures traced { IfOk result (λ t. AreTraced I.whole solver fill wanted (map (plain_given I.whole) edges.now)
        (traced_arrays t.coordinates.items t.fills.items t.source_ends.items t.sources.items)) }
    ensures err { IfErr result (MayRefuseTracing solver (map (plain_given I.whole) edges.now)) }
{
    let lists = merged_lists(alloc, edges, solver).ok();
    traced_with(alloc, edges, wanted, fill, solver, lists.as_ref())
}

// The edges, where the lists are those of the merged edges.
fn traced_with<'a, I: IntNumber>(
    alloc: Global,
    edges: &[GivenEdge<I>],
    wanted: Option<OverlayRule>,
    fill: FillRule,
    solver: Solver,
    lists: Option<&'a SourceLists>,
) -> Result<TracedEdges<I>, OverlayError>
    requires { All (IsGivenInRange I.whole I.limit) edges.now }
    ensures traced { IfOk result (λ t. AreTraced I.whole solver fill wanted (map (plain_given I.whole) edges.now)
        (traced_arrays t.coordinates.items t.fills.items t.source_ends.items t.sources.items)) }
    ensures err { IfErr result (MayRefuseTracing solver (map (plain_given I.whole) edges.now)) }
{
    let mut store = SecondPass { lists, next: 0 };
    let vectors: Vec<DataVectorEdge<I, Mark<'a>>, Global> = wanted_edges::<I, Mark<'a>>(
        alloc, edges, wanted, fill, solver, &mut store,
    )?;
    let told = told_edges(alloc, &vectors)?;
    Ok(told)
}
