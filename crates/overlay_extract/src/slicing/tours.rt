//! The tours of orbits: closed walks from the smallest point of an orbit back to it.

ghost use Rattle.std.specs.Prelude.{◌≡◌, ◌<◌, ◌≤◌, ◌++◌, [], ◌∷◌, false, length, All, IfOk, OnOk};
ghost use Rattle.overlay_geom.specs.Plane.{point_lt};
ghost use Rattle.overlay_geom.specs.Points.{plain_point};
ghost use Rattle.overlay_extract.specs.ClosedWalks.{IsClosedWalk};
ghost use Rattle.overlay_extract.specs.TourOrder.{AreFromStart, AreToursInOrder, IsSplitAtLeast, IsSplitAtStart};
ghost use Rattle.overlay_extract.specs.Tours.{AreSplitIntoTours, IsSplitInto, IsSplitSoFar};
ghost use Rattle.overlay_walk.specs.Places.{step_at};
ghost use Rattle.overlay_walk.specs.Steps.{plain_step, plain_steps};
ghost use Rattle.overlay_walk.specs.Walks.{plain_walks};

use crate::slicing::tour_order::compare_tours;
use overlay_geom::edge::compare_points;
use overlay_geom::number::IntNumber;
use overlay_geom::point::IntPoint;
use overlay_walk::step::Step;
use std::alloc::{AllocError, Allocator};
use std::mem;

/// The tours of the orbits. Each leads from the smallest point of an orbit back to this point, which it does not visit
/// in between. They stand in the order in which the edges come along which they leave that point or come back to it,
/// each at the first of the two; of two tours at one edge the one comes first that leaves along it.
pub fn tours<I: IntNumber, A: Allocator + Clone>(
    alloc: A,
    orbits: &[Vec<Step<I>, A>],
) -> Result<Vec<Vec<Step<I>, A>, A>, AllocError>
    requires { All IsClosedWalk (plain_walks I.whole orbits.now) }
    ensures tours { IfOk result
        (λ ts. AreSplitIntoTours (plain_walks I.whole orbits.now) (plain_walks I.whole ts.items)) }
    ensures order { IfOk result
        (λ ts. AreToursInOrder (plain_walks I.whole orbits.now) (plain_walks I.whole ts.items)) }
{
    let mut tours = Vec::new(alloc.clone()?);
    for i in 0..orbits.len() {
        let mut of_orbit = tours_of(alloc.clone()?, &orbits[i])?;
        tours.append(&mut of_orbit)?;
    }
    tours.sort_by(|s, t| compare_tours(s, t))?;
    Ok(tours)
}

// The tours of an orbit.
fn tours_of<I: IntNumber, A: Allocator + Clone>(
    alloc: A,
    orbit: &[Step<I>],
) -> Result<Vec<Vec<Step<I>, A>, A>, AllocError>
    requires { IsClosedWalk (plain_steps I.whole orbit.now) }
    ensures tours { IfOk result (λ ts. IsSplitInto (plain_steps I.whole orbit.now) (plain_walks I.whole ts.items)) }
    ensures least { IfOk result
        (λ ts. IsSplitAtLeast (plain_steps I.whole orbit.now) (plain_walks I.whole ts.items)) }
{
    let mut from_least = Vec::from_slice(alloc.clone()?, orbit)?;
    from_least.rotate_left(least_place(orbit));
    split(alloc, &from_least)
}

// The place of a step that leaves the smallest point.
fn least_place<I: IntNumber>(orbit: &[Step<I>]) -> usize
    ensures place { result ≤ length orbit.now }
    ensures within { 0 < length orbit.now → result < length orbit.now }
    ensures least { All (λ s. point_lt s.from (step_at (plain_steps I.whole orbit.now) result).from ≡ false)
        (plain_steps I.whole orbit.now) }
{
    let mut least = 0;
    for place in 0..orbit.len() {
        if compare_points(orbit[place].from, orbit[least].from).is_lt() {
            least = place;
        }
    }
    least
}

// A closed walk, split where it comes back to the point at which it begins.
fn split<I: IntNumber, A: Allocator + Clone>(
    alloc: A,
    walk: &[Step<I>],
) -> Result<Vec<Vec<Step<I>, A>, A>, AllocError>
    requires { IsClosedWalk (plain_steps I.whole walk.now) }
    ensures tours { IfOk result (λ ts. IsSplitInto (plain_steps I.whole walk.now) (plain_walks I.whole ts.items)) }
    ensures start { IfOk result
        (λ ts. IsSplitAtStart (plain_steps I.whole walk.now) (plain_walks I.whole ts.items)) }
{
    let mut tours = Vec::new(alloc.clone()?);
    if walk.is_empty() {
        return Ok(tours);
    }
    let start = walk[0].from;
    let mut tour = Vec::new(alloc.clone()?);
    for place in 0..walk.len() {
        go_on(&mut tours, &mut tour, walk[place], start)?;
    }
    Ok(tours)
}

// Goes on by a step, which ends the tour where it comes back to the start.
fn go_on<I: IntNumber, A: Allocator + Clone>(
    tours: &mut Vec<Vec<Step<I>, A>, A>,
    tour: &mut Vec<Step<I>, A>,
    step: Step<I>,
    start: IntPoint<I>,
) -> Result<(), AllocError>
    ensures on { OnOk result ((walked : _) → IsSplitSoFar (plain_point I.whole start) (plain_step I.whole step).from
        walked (plain_steps I.whole tour.old.items) (plain_walks I.whole tours.old.items) →
        IsSplitSoFar (plain_point I.whole start) (plain_step I.whole step).to (walked ++ plain_step I.whole step ∷ [])
        (plain_steps I.whole tour.new.items) (plain_walks I.whole tours.new.items)) }
    ensures start { OnOk result ((walked : _) → IsSplitSoFar (plain_point I.whole start) (plain_step I.whole step).from
        walked (plain_steps I.whole tour.old.items) (plain_walks I.whole tours.old.items) →
        AreFromStart (plain_point I.whole start) (plain_steps I.whole tour.old.items)
        (plain_walks I.whole tours.old.items) →
        AreFromStart (plain_point I.whole start) (plain_steps I.whole tour.new.items)
        (plain_walks I.whole tours.new.items)) }
{
    tour.push(step)?;
    if !compare_points(step.to, start).is_eq() {
        return Ok(());
    }
    let next = Vec::new(tour.allocator().clone()?);
    tours.push(mem::replace(tour, next))?;
    Ok(())
}
