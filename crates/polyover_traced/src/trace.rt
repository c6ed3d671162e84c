//! The edges of an arrangement of edges in arrays, with those that each comes from.

ghost use Rattle.std.specs.Prelude.{◌≡◌, ◌<◌, ◌≤◌, MatchResult};
ghost use Rattle.overlay_traced.specs.Told.{traced_arrays};
ghost use Rattle.polyover_calls.specs.declared.status.Status.TheVariants.{BadRule};
ghost use Rattle.polyover_traced.specs.EdgeLists.{edge_list};
ghost use Rattle.polyover_traced.specs.Held.{arrays_of};
ghost use Rattle.polyover_traced.specs.Traced.{IsTrace, IsTraceRefused, TraceIsHeld, wanted_of};

use crate::edge_list::{EdgeList, are_sides, read_edges, test_edges};
use crate::held::{Outcome, hold, hold_nothing};
use i_overlay::overlay_rule::OverlayRule;
use overlay_geom::number::IntNumber;
use overlay_traced::told::TracedEdges;
use overlay_traced::traced::traced_edges;
use polyover_calls::numbers::{fill_of, rule_of, solver_of};
use polyover_calls::status::Status;
use std::alloc::Global;

// The number that stands for all edges, in the place of an overlay rule.
const ALL_EDGES: u32 = 7;

/// The edges of the arrangement that the numbers ask for, with the given edges that each comes from.
#[tactic(auto, using(polyover_calls::proofs::Endings::put_ends, polyover_calls::proofs::Endings::refused_ends))]
pub fn trace_held<'a, I: IntNumber + 'a>(
    alloc: Global,
    rule: u32,
    fill: u32,
    solver: u32,
    edges: &EdgeList<I>,
) -> Outcome<'a, I>
    ensures { TraceIsHeld I.whole I.limit rule fill solver
        (edge_list edges.now.coordinates.now edges.now.sides.now) (arrays_of result.traced) result.status }
{
    match trace(alloc, rule, fill, solver, edges) {
        Ok(traced) => hold(traced),
        Err(status) => hold_nothing(status),
    }
}

// The traced edges. The numbers are tested first, then the sides and the arrays, before memory is taken.
fn trace<I: IntNumber>(
    alloc: Global,
    rule: u32,
    fill: u32,
    solver: u32,
    edges: &EdgeList<I>,
) -> Result<TracedEdges<I>, Status>
    ensures { MatchResult result
        (λ t. IsTrace I.whole I.limit rule fill solver (edge_list edges.now.coordinates.now edges.now.sides.now)
        (traced_arrays t.coordinates.items t.fills.items t.source_ends.items t.sources.items))
        (IsTraceRefused I.whole I.limit rule fill solver
        (edge_list edges.now.coordinates.now edges.now.sides.now)) }
{
    let wanted = wanted_of(rule)?;
    let fill = fill_of(fill)?;
    let solver = solver_of(solver)?;
    if !are_sides(edges.sides) {
        return Err(Status::BadOption);
    }
    test_edges(edges)?;
    let given = read_edges(alloc, edges)?;
    let traced = traced_edges(alloc, &given, wanted, fill, solver)?;
    Ok(traced)
}

// The overlay rule with the number, or none where all edges are wanted; `BadRule` from 8 on.
fn wanted_of(number: u32) -> Result<Option<OverlayRule>, Status>
    ensures { MatchResult result (λ w. (number < 8) × (w ≡ wanted_of number)) (λ s. (s ≡ BadRule) × (8 ≤ number)) }
{
    if number == ALL_EDGES {
        return Ok(None);
    }
    let rule = rule_of(number)?;
    Ok(Some(rule))
}
