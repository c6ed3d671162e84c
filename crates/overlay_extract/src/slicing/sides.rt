//! The filled sides of edges, as steps.

ghost use Rattle.std.specs.Prelude.{◌≡◌, ◌++◌, map, OnOk};
ghost use Rattle.std.specs.List.{flat_map};
ghost use Rattle.overlay_geom.specs.Plane.{reversed_step};
ghost use Rattle.overlay_order.specs.Vectors.{plain_vector};
ghost use Rattle.overlay_extract.specs.SidesByBits.{step_if, sides_by_bits};
ghost use Rattle.overlay_walk.specs.Steps.{plain_step, plain_steps};

use overlay_geom::number::IntNumber;
use overlay_order::vector::{DataVectorEdge, SUBJ_LEFT, SUBJ_RIGHT};
use overlay_walk::step::Step;
use std::alloc::{AllocError, Allocator};

/// Adds, for each edge and each side of it that the subject fills, the step along the edge that has this side on its
/// left, with the number of the edge. After a refusal, some of them may stand.
pub fn push_sides<I: IntNumber, D: Copy, A: Allocator>(
    steps: &mut Vec<Step<I>, A>,
    edges: &[DataVectorEdge<I, D>],
) -> Result<(), AllocError>
    ensures ok { OnOk result (plain_steps I.whole steps.new.items ≡ plain_steps I.whole steps.old.items
        ++ flat_map sides_by_bits (map (plain_vector I.whole) edges.now)) }
{
    for number in 0..edges.len() {
        push_sides_of(steps, edges[number], number)?;
    }
    Ok(())
}

// Adds the filled sides of the edge with this number.
fn push_sides_of<I: IntNumber, D: Copy, A: Allocator>(
    steps: &mut Vec<Step<I>, A>,
    edge: DataVectorEdge<I, D>,
    number: usize,
) -> Result<(), AllocError>
    ensures ok { OnOk result (plain_steps I.whole steps.new.items ≡ plain_steps I.whole steps.old.items
        ++ sides_by_bits (plain_vector I.whole edge)) }
{
    let forth = Step {
        from: edge.a,
        to: edge.b,
        edge: number,
    };
    push_if(steps, edge.fill & SUBJ_LEFT != 0, forth)?;
    push_if(steps, edge.fill & SUBJ_RIGHT != 0, step_back(forth))?;
    Ok(())
}

// Adds the step, if it has a filled side.
fn push_if<I: IntNumber, A: Allocator>(
    steps: &mut Vec<Step<I>, A>,
    is_filled: bool,
    step: Step<I>,
) -> Result<(), AllocError>
    ensures ok { OnOk result (plain_steps I.whole steps.new.items
        ≡ plain_steps I.whole steps.old.items ++ step_if is_filled (plain_step I.whole step)) }
{
    if !is_filled {
        return Ok(());
    }
    steps.push(step)?;
    Ok(())
}

/// The step back along the same edge.
pub(crate) fn step_back<I: IntNumber>(step: Step<I>) -> Step<I>
    ensures { plain_step I.whole result ≡ reversed_step (plain_step I.whole step) }
{
    Step {
        from: step.to,
        to: step.from,
        edge: step.edge,
    }
}
