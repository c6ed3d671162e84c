//! Closed walks through points, which are cut into loops.

ghost use Rattle.std.specs.Prelude.{All, IfOk, OnOk};
ghost use Rattle.overlay_geom.specs.Points.{plain_point};
ghost use Rattle.overlay_plane.specs.Groups.{IsSimpleContour};
ghost use Rattle.overlay_extract.specs.ClosedWalks.{HasLength, IsClosedWalk, LeadsTo};
ghost use Rattle.overlay_walk.specs.Steps.{plain_steps};
ghost use Rattle.overlay_walk.specs.Walks.{plain_walks};

use overlay_extract::slicing::cutter::cut_loops;
use overlay_geom::edge::compare_points;
use overlay_geom::number::IntNumber;
use overlay_geom::point::IntPoint;
use overlay_walk::step::Step;
use std::alloc::{AllocError, Global};

// Adds the step from the point reached to another one, if they differ.
fn push_step<I: IntNumber>(
    walk: &mut Vec<Step<I>, Global>,
    from: IntPoint<I>,
    to: IntPoint<I>,
) -> Result<(), AllocError>
    ensures leads { OnOk result ((start : _) →
        LeadsTo start (plain_steps I.whole walk.old.items) (plain_point I.whole from) →
        LeadsTo start (plain_steps I.whole walk.new.items) (plain_point I.whole to)) }
    ensures long { OnOk result (All HasLength (plain_steps I.whole walk.old.items) →
        All HasLength (plain_steps I.whole walk.new.items)) }
{
    if compare_points(from, to).is_eq() {
        return Ok(());
    }
    let edge = walk.len();
    walk.push(Step { from, to, edge })?;
    Ok(())
}

// The walk through the points, and from the last one back to the first.
fn walk_through<I: IntNumber>(
    alloc: Global,
    points: &[IntPoint<I>],
) -> Result<Vec<Step<I>, Global>, AllocError>
    ensures closed { IfOk result (λ w. IsClosedWalk (plain_steps I.whole w.items)) }
    ensures long { IfOk result (λ w. All HasLength (plain_steps I.whole w.items)) }
{
    let mut walk = Vec::new(alloc);
    if points.is_empty() {
        return Ok(walk);
    }
    let start = points[0];
    let mut reached = start;
    for i in 1..points.len() {
        let next = points[i];
        push_step(&mut walk, reached, next)?;
        reached = next;
    }
    push_step(&mut walk, reached, start)?;
    Ok(walk)
}

/// The loops into which the closed walk through the points is cut; none visits a point twice.
pub fn loops_through<I: IntNumber>(
    alloc: Global,
    points: &[IntPoint<I>],
) -> Result<Vec<Vec<Step<I>, Global>, Global>, AllocError>
    ensures simple { IfOk result (λ ls. All IsSimpleContour (plain_walks I.whole ls.items)) }
{
    let walk = walk_through(alloc, points)?;
    cut_loops(alloc, &walk)
}
