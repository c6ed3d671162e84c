//! The orbits of the filled sides of a graph.

ghost use Rattle.std.specs.Prelude.{IfOk};
ghost use Rattle.std.specs.List.Sorted.{IsPermutation};
ghost use Rattle.overlay_geom.specs.Edges.{subj_of};
ghost use Rattle.overlay_geom.specs.Rules.{is_filled};
ghost use Rattle.overlay_plane.specs.Balance.{HasBalancedCounts};
ghost use Rattle.overlay_graph.specs.Graphs.{graph_edges};
ghost use Rattle.overlay_extract.specs.FilledSides.{filled_sides};
ghost use Rattle.overlay_extract.specs.Tours.{AreOrbits};
ghost use Rattle.overlay_walk.specs.Steps.{plain_steps};
ghost use Rattle.overlay_walk.specs.Walks.{plain_walks};

use crate::slicing::sides::push_sides;
use overlay_geom::number::IntNumber;
use overlay_graph::graph::Graph;
use overlay_order::count::EdgeCount;
use overlay_walk::contour_cut::cut_into_contours;
use overlay_walk::hand::{Hand, HandRule};
use overlay_walk::open_steps::OpenSteps;
use overlay_walk::step::Step;
use std::alloc::{AllocError, Allocator};

/// The orbits by the left hand of the filled sides of the graph's edges: from each side the walk turns through it to
/// the next edge that is there at all, or back along the same edge. The counts of the edges are balanced.
pub fn side_orbits<I: IntNumber, C: EdgeCount, A: Allocator + Clone>(
    graph: &Graph<I, C, A>,
) -> Result<Vec<Vec<Step<I>, A>, A>, AllocError>
    requires { HasBalancedCounts (graph_edges graph.now) }
    ensures orbits { IfOk result (λ ws. AreOrbits
        (filled_sides (is_filled graph.now.fill_rule) subj_of (graph_edges graph.now)) (plain_walks I.whole ws.items)) }
{
    let mut open = open_sides(graph)?;
    let alloc = graph.allocator().clone()?;
    let orbits = cut_into_contours(alloc, &mut open, HandRule::Always(Hand::Left))?;
    Ok(orbits)
}

// The filled sides of the graph's edges, none of them walked.
fn open_sides<I: IntNumber, C: EdgeCount, A: Allocator + Clone>(
    graph: &Graph<I, C, A>,
) -> Result<OpenSteps<I, A>, AllocError>
    requires { HasBalancedCounts (graph_edges graph.now) }
    ensures sides { IfOk result (λ o. IsPermutation
        (filled_sides (is_filled graph.now.fill_rule) subj_of (graph_edges graph.now)) (plain_steps I.whole o)) }
{
    let mut steps = Vec::new(graph.allocator().clone()?);
    let edges = graph.edges();
    push_sides(&mut steps, edges)?;
    OpenSteps::new(steps)
}
