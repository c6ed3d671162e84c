//! Steps that are cut into contours.

ghost use Rattle.std.specs.Prelude.{IfOk};
ghost use Rattle.overlay_plane.specs.BesideOrbits.{HasEachOnce};
ghost use Rattle.overlay_plane.specs.Contours.{outline_or_hole_hand, CanBeCut, IsCutInto};
ghost use Rattle.overlay_walk.specs.Steps.{plain_steps, filled_hand};
ghost use Rattle.overlay_walk.specs.Walks.{plain_walks};

use overlay_geom::number::IntNumber;
use overlay_geom::options::ContourDirection;
use overlay_walk::contour_cut::cut_into_contours;
use overlay_walk::hand::HandRule;
use overlay_walk::open_steps::OpenSteps;
use overlay_walk::step::Step;
use std::alloc::{AllocError, Global};

/// The contours of the steps left.
pub fn contours<I: IntNumber>(
    alloc: Global,
    steps: &mut OpenSteps<I, Global>,
    direction: ContourDirection,
) -> Result<Vec<Vec<Step<I>, Global>, Global>, AllocError>
    requires cuttable { CanBeCut (outline_or_hole_hand (filled_hand direction)) (plain_steps I.whole steps.old) }
    requires once { HasEachOnce (plain_steps I.whole steps.old) }
    ensures { IfOk result (λ ws. IsCutInto (outline_or_hole_hand (filled_hand direction))
        (plain_steps I.whole steps.old) (plain_walks I.whole ws.items)) }
{
    cut_into_contours(alloc, steps, HandRule::OutlineOrHole(direction))
}
