//! Edges with the given edges that they come from, handed out.

ghost use Rattle.polyover_traced.specs.EdgeLists.{edge_list};
ghost use Rattle.polyover_traced.specs.Held.{IsGivenTrace, arrays_at_32, arrays_at_64};
ghost use Rattle.polyover_traced.specs.Traced.{TraceIsHeld};

use polyover_traced::edge_list::{EdgeList32, EdgeList64};
use polyover_traced::held::{Traced32, Traced64};
use polyover_traced::trace::trace_held;
use std::alloc::Global;

/// Hands out the edges of the arrangement of the given edges that the rule selects, or all of them, each with its
/// filled sides and the given edges that it comes from.
#[unsafe(no_mangle)]
pub extern "C" fn polyover_trace<'a>(
    alloc: Global,
    rule: u32,
    fill: u32,
    solver: u32,
    edges: &EdgeList64,
    traced: &mut Traced64<'a>,
) -> u32
    ensures { IsGivenTrace (TraceIsHeld (λ z. z) 4611686018427387903 rule fill solver
        (edge_list edges.now.coordinates.now edges.now.sides.now)) (arrays_at_64 traced.new) result }
{
    traced.give(&trace_held(alloc, rule, fill, solver, &edges.given()))
}

/// `polyover_trace` at 32 bits.
#[unsafe(no_mangle)]
pub extern "C" fn polyover_trace_32<'a>(
    alloc: Global,
    rule: u32,
    fill: u32,
    solver: u32,
    edges: &EdgeList32,
    traced: &mut Traced32<'a>,
) -> u32
    ensures { IsGivenTrace (TraceIsHeld (λ z. z) 1073741823 rule fill solver
        (edge_list edges.now.coordinates.now edges.now.sides.now)) (arrays_at_32 traced.new) result }
{
    traced.give(&trace_held(alloc, rule, fill, solver, &edges.given()))
}
