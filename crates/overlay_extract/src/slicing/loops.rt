//! The loops into which the filled sides of a graph are cut.

ghost use Rattle.std.specs.Prelude.{◌≡◌, map, All, IfOk};
ghost use Rattle.overlay_geom.specs.Edges.{subj_of};
ghost use Rattle.overlay_geom.specs.Plane.{backward};
ghost use Rattle.overlay_geom.specs.Rules.{is_filled};
ghost use Rattle.overlay_plane.specs.Balance.{HasBalancedCounts};
ghost use Rattle.overlay_plane.specs.Groups.{IsSimpleContour};
ghost use Rattle.overlay_graph.specs.Graphs.{graph_edges};
ghost use Rattle.overlay_extract.specs.ClosedWalks.{HasLength, IsClosedWalk, IsCutIntoLoops, turned_loop};
ghost use Rattle.overlay_extract.specs.FilledSides.{filled_sides};
ghost use Rattle.overlay_extract.specs.Loops.{AreLoops};
ghost use Rattle.overlay_extract.specs.SlicingWalks.{AreFoundInOrder};
ghost use Rattle.overlay_extract.specs.TourOrder.{AreLoopsOfTour, AreLoopsOfTours};
ghost use Rattle.overlay_extract.specs.Tours.{AreCutIntoLoops};
ghost use Rattle.overlay_walk.specs.Steps.{plain_steps};
ghost use Rattle.overlay_walk.specs.Walks.{plain_walks};

use crate::slicing::cutter::cut_loops;
use crate::slicing::orbits::side_orbits;
use crate::slicing::sides::step_back;
use crate::slicing::tour_order::is_walked_along;
use crate::slicing::tours::tours;
use overlay_geom::number::IntNumber;
use overlay_graph::graph::Graph;
use overlay_order::count::EdgeCount;
use overlay_walk::step::Step;
use std::alloc::{AllocError, Allocator};

/// The loops into which the filled sides of the graph's edges are cut, each with the filled side on its left. None of
/// them visits a point twice. A side is left out exactly where its reverse is a filled side too and both lie in one
/// orbit by the left hand; each other side stands in one loop.
///
/// They are found tour by tour. A tour is walked from its start along the first edge in order of the two that it has
/// there, also where it comes back along this edge, and so is walked back; a loop of a tour that is walked back is
/// turned round at the end. The counts of the edges are balanced.
pub fn filled_loops<I: IntNumber, C: EdgeCount, A: Allocator + Clone>(
    graph: &Graph<I, C, A>,
) -> Result<Vec<Vec<Step<I>, A>, A>, AllocError>
    requires { HasBalancedCounts (graph_edges graph.now) }
    ensures loops { IfOk result (λ ls. AreLoops
        (filled_sides (is_filled graph.now.fill_rule) subj_of (graph_edges graph.now)) (plain_walks I.whole ls.items)) }
    ensures order { IfOk result (λ ls. AreFoundInOrder
        (filled_sides (is_filled graph.now.fill_rule) subj_of (graph_edges graph.now)) (plain_walks I.whole ls.items)) }
{
    let orbits = side_orbits(graph)?;
    let tours = tours(graph.allocator().clone()?, &orbits)?;
    loops_of(graph.allocator().clone()?, &tours)
}

// The loops of all tours.
fn loops_of<I: IntNumber, A: Allocator + Clone>(
    alloc: A,
    tours: &[Vec<Step<I>, A>],
) -> Result<Vec<Vec<Step<I>, A>, A>, AllocError>
    requires closed { All IsClosedWalk (plain_walks I.whole tours.now) }
    requires long { All (All HasLength) (plain_walks I.whole tours.now) }
    ensures loops { IfOk result
        (λ ls. AreCutIntoLoops (plain_walks I.whole tours.now) (plain_walks I.whole ls.items)) }
    ensures order { IfOk result
        (λ ls. AreLoopsOfTours (plain_walks I.whole tours.now) (plain_walks I.whole ls.items)) }
{
    let mut loops = Vec::new(alloc.clone()?);
    for i in 0..tours.len() {
        let mut of_tour = loops_of_tour(alloc.clone()?, &tours[i])?;
        loops.append(&mut of_tour)?;
    }
    Ok(loops)
}

// The loops of a tour.
fn loops_of_tour<I: IntNumber, A: Allocator + Clone>(
    alloc: A,
    tour: &[Step<I>],
) -> Result<Vec<Vec<Step<I>, A>, A>, AllocError>
    requires closed { IsClosedWalk (plain_steps I.whole tour.now) }
    requires long { All HasLength (plain_steps I.whole tour.now) }
    ensures loops { IfOk result
        (λ ls. IsCutIntoLoops (plain_steps I.whole tour.now) (plain_walks I.whole ls.items)) }
    ensures order { IfOk result
        (λ ls. AreLoopsOfTour (plain_steps I.whole tour.now) (plain_walks I.whole ls.items)) }
{
    if is_walked_along(tour) {
        return cut_loops(alloc, tour);
    }
    let back = walked_back(alloc.clone()?, tour)?;
    let loops = cut_loops(alloc.clone()?, &back)?;
    turned_loops(alloc, &loops)
}

// The loops turned round.
fn turned_loops<I: IntNumber, A: Allocator + Clone>(
    alloc: A,
    loops: &[Vec<Step<I>, A>],
) -> Result<Vec<Vec<Step<I>, A>, A>, AllocError>
    requires { All IsSimpleContour (plain_walks I.whole loops.now) }
    ensures turned { IfOk result
        (λ ls. plain_walks I.whole ls.items ≡ map turned_loop (plain_walks I.whole loops.now)) }
{
    let mut turned = Vec::new(alloc.clone()?);
    for i in 0..loops.len() {
        let mut back = walked_back(alloc.clone()?, &loops[i])?;
        back.rotate_left(1);
        turned.push(back)?;
    }
    Ok(turned)
}

// The walk back.
fn walked_back<I: IntNumber, A: Allocator>(
    alloc: A,
    walk: &[Step<I>],
) -> Result<Vec<Step<I>, A>, AllocError>
    ensures back { IfOk result (λ w. plain_steps I.whole w.items ≡ backward (plain_steps I.whole walk.now)) }
{
    let mut back = Vec::with_capacity(alloc, walk.len())?;
    for place in 0..walk.len() {
        back.push(step_back(walk[place]))?;
    }
    back.reverse();
    Ok(back)
}
