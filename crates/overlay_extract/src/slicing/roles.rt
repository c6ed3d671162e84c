//! Loops as contours with roles: outlines and holes.

ghost use Rattle.std.specs.Prelude.{◌≡◌, ◌<◌, length, All, IfOk};
ghost use Rattle.overlay_plane.specs.BoundContours.{walks_in};
ghost use Rattle.overlay_plane.specs.Groups.{IsSimpleContour};
ghost use Rattle.overlay_extract.specs.Bound.{HaveRoles, PassesAnchor};
ghost use Rattle.overlay_walk.specs.GroupedContours.{plain_contours};
ghost use Rattle.overlay_walk.specs.Steps.{plain_steps, IsLong};
ghost use Rattle.overlay_walk.specs.Walks.{plain_walks};

use crate::binding::anchor::lowest_step;
use overlay_geom::number::IntNumber;
use overlay_walk::contour::{Contour, Role};
use overlay_walk::step::{Step, is_forward};
use std::alloc::{AllocError, Allocator};

/// The loops as contours. One that passes the lowest edge at its leftmost lowest point with its filled side, the left
/// one, below is a hole whose shape is to be found; each other is an outline, and they are numbered from 0.
pub fn contours_of_loops<I: IntNumber, A: Allocator>(
    alloc: A,
    loops: Vec<Vec<Step<I>, A>, A>,
) -> Result<Vec<Contour<I, A>, A>, AllocError>
    requires simple { All IsSimpleContour (plain_walks I.whole loops.items) }
    requires long { All (All (IsLong I.limit)) (plain_walks I.whole loops.items) }
    ensures walks { IfOk result (λ cs. walks_in (plain_contours I.whole cs.items) ≡ plain_walks I.whole loops.items) }
    ensures roles { IfOk result (λ cs. HaveRoles 0 (plain_contours I.whole cs.items)) }
{
    let mut contours = Vec::new(alloc);
    let mut number = 0;
    for steps in loops {
        if is_filled_above_anchor(&steps) {
            let role = Role::Outline(number);
            contours.push(Contour { role, steps })?;
            number += 1;
        } else {
            let role = Role::FreeHole;
            contours.push(Contour { role, steps })?;
        }
    }
    Ok(contours)
}

// Returns whether the loop, which has its filled side on its left, passes the edge of its anchor with this side
// above.
fn is_filled_above_anchor<I: IntNumber>(walk: &[Step<I>]) -> bool
    requires some { 0 < length walk.now }
    requires long { All (IsLong I.limit) (plain_steps I.whole walk.now) }
    ensures { PassesAnchor result (plain_steps I.whole walk.now) }
{
    is_forward(&lowest_step(walk))
}
