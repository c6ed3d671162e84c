//! The selected steps: steps along edges with the region on exactly one side.

ghost use Rattle.std.specs.Prelude.{◌≡◌, ◌++◌, map, flat_map, option_map, option_to_list};
ghost use Rattle.std.specs.Prelude.{List, slice_get, Some, All, IfSome, OnOk};
ghost use Rattle.overlay_geom.specs.Plane.{Edge};
ghost use Rattle.overlay_plane.specs.SelectedSteps.{step_with_left};
ghost use Rattle.overlay_order.specs.Vectors.{plain_vector};
ghost use Rattle.overlay_walk.specs.Steps.{filled_hand, plain_step, plain_steps, IsAlong, RunsAlong};
ghost use Rattle.overlay_walk.specs.Selection.{ends, bits_hold_above, bits_hold_below, steps_by_bits};

use crate::step::Step;
use overlay_geom::number::IntNumber;
use overlay_geom::options::ContourDirection;
use overlay_geom::overlay_rule::OverlayRule;
use overlay_order::vector::{
    CLIP_LEFT, CLIP_RIGHT, DataVectorEdge, SUBJ_LEFT, SUBJ_RIGHT, SideFill,
};
use std::alloc::{AllocError, Allocator};

/// Adds the selected steps of the edges, in their order, each with the number of its edge. After a refusal, some of
/// them may stay.
pub fn push_selected<I: IntNumber, D: Copy, A: Allocator>(
    steps: &mut Vec<Step<I>, A>,
    edges: &[DataVectorEdge<I, D>],
    rule: OverlayRule,
    direction: ContourDirection,
) -> Result<(), AllocError>
    ensures ok { OnOk result (plain_steps I.whole steps.new.items ≡ plain_steps I.whole steps.old.items
        ++ flat_map (steps_by_bits rule (filled_hand direction)) (map (plain_vector I.whole) edges.now)) }
    ensures along { OnOk result (
        All (RunsAlong I.whole (map (λ v. ends (plain_vector I.whole v)) edges.now)) steps.old.items
        → All (RunsAlong I.whole (map (λ v. ends (plain_vector I.whole v)) edges.now)) steps.new.items) }
{
    for number in 0..edges.len() {
        push_step(steps, edges[number], number, rule, direction)?;
    }
    Ok(())
}

// Adds the selected step of the edge with this number, if there is one.
fn push_step<I: IntNumber, D: Copy, A: Allocator>(
    steps: &mut Vec<Step<I>, A>,
    edge: DataVectorEdge<I, D>,
    number: usize,
    rule: OverlayRule,
    direction: ContourDirection,
) -> Result<(), AllocError>
    ensures ok { OnOk result (plain_steps I.whole steps.new.items ≡ plain_steps I.whole steps.old.items
        ++ steps_by_bits rule (filled_hand direction) (plain_vector I.whole edge)) }
    ensures along { OnOk result ((es : List Edge) → slice_get es number ≡ Some (ends (plain_vector I.whole edge))
        → All (RunsAlong I.whole es) steps.old.items → All (RunsAlong I.whole es) steps.new.items) }
{
    if let Some(step) = selected_step(edge, number, rule, direction) {
        steps.push(step)?;
    }
    Ok(())
}

// Returns the step along the edge that has the side where the rule holds on its left, or on its right where the
// direction is clockwise. It returns none where the rule holds on both sides or on neither.
fn selected_step<I: IntNumber, D: Copy>(
    edge: DataVectorEdge<I, D>,
    number: usize,
    rule: OverlayRule,
    direction: ContourDirection,
) -> Option<Step<I>>
    ensures step { option_to_list (option_map (plain_step I.whole) result)
        ≡ steps_by_bits rule (filled_hand direction) (plain_vector I.whole edge) }
    ensures along { IfSome result (IsAlong I.whole number (ends (plain_vector I.whole edge))) }
{
    let above = holds_above(rule, edge.fill);
    let below = holds_below(rule, edge.fill);
    if above == below {
        return None;
    }
    let goes_along = match direction {
        ContourDirection::CounterClockwise => above,
        ContourDirection::Clockwise => below,
    };
    Some(step_along(edge, number, goes_along))
}

// Returns the step along the edge from a to b, or back, with the edge's number.
fn step_along<I: IntNumber, D: Copy>(
    edge: DataVectorEdge<I, D>,
    number: usize,
    goes_along: bool,
) -> Step<I>
    ensures step { plain_step I.whole result ≡ step_with_left goes_along (ends (plain_vector I.whole edge)) }
    ensures number { result.edge ≡ number }
{
    let (from, to) = if goes_along {
        (edge.a, edge.b)
    } else {
        (edge.b, edge.a)
    };
    Step {
        from,
        to,
        edge: number,
    }
}

// Returns whether the rule holds above an edge with these fill bits.
fn holds_above(rule: OverlayRule, fill: SideFill) -> bool
    ensures { result ≡ bits_hold_above rule fill }
{
    rule.holds(fill & SUBJ_LEFT != 0, fill & CLIP_LEFT != 0)
}

// Returns whether the rule holds below an edge with these fill bits.
fn holds_below(rule: OverlayRule, fill: SideFill) -> bool
    ensures { result ≡ bits_hold_below rule fill }
{
    rule.holds(fill & SUBJ_RIGHT != 0, fill & CLIP_RIGHT != 0)
}
