//! Anchors of walks: the lowest edges at their leftmost lowest points.

ghost use Rattle.std.specs.Prelude.{◌≡◌, ◌<◌, length, map, All, Contains, IfOk};
ghost use Rattle.std.specs.Ordering.{is_lt};
ghost use Rattle.overlay_geom.specs.Plane.{edge_of};
ghost use Rattle.overlay_plane.specs.Anchors.{IsAnchor, is_anchored_before};
ghost use Rattle.overlay_plane.specs.Contours.{IsContour};
ghost use Rattle.overlay_walk.specs.GroupedContours.{walk_of};
ghost use Rattle.overlay_walk.specs.Steps.{plain_step, plain_steps, IsLong};
ghost use Rattle.overlay_walk.specs.WalkEdges.{numbered_entry, numbered_entries};
ghost use Rattle.overlay_extract.specs.WalkEntries.{AreHoleEntries};

use crate::binding::by_start::{compare_starts, sort_by_start};
use overlay_geom::number::IntNumber;
use overlay_walk::contour::Contour;
use overlay_walk::filled_side::edge_along;
use overlay_walk::numbered_edge::NumberedEdge;
use overlay_walk::step::Step;
use std::alloc::{AllocError, Allocator};
use std::cmp::Ordering;

/// Returns the anchors of the walks whose shape is not yet known, in the order of anchors, each with the index of its
/// walk.
pub fn hole_anchors<I: IntNumber, A: Allocator>(
    alloc: A,
    contours: &[Contour<I, A>],
    known: &[Option<usize>],
) -> Result<Vec<NumberedEdge<I>, A>, AllocError>
    requires long { All (All (IsLong I.limit)) (map (walk_of I.whole) contours.now) }
    requires contours { All IsContour (map (walk_of I.whole) contours.now) }
    requires known { length known.now ≡ length contours.now }
    ensures ok { IfOk result (λ v. AreHoleEntries (map (walk_of I.whole) contours.now) known.now
        (numbered_entries I.whole v.items)) }
{
    let mut anchors = Vec::new(alloc);
    for i in 0..contours.len() {
        if known[i].is_none() {
            anchors.push(anchor_of(&contours[i].steps, i))?;
        }
    }
    sort_by_start(&mut anchors)?;
    Ok(anchors)
}

/// Returns the anchor of a walk: the lowest of its edges at its leftmost lowest point. It gets the walk's index.
fn anchor_of<I: IntNumber>(walk: &[Step<I>], index: usize) -> NumberedEdge<I>
    requires some { 0 < length walk.now }
    requires long { All (IsLong I.limit) (plain_steps I.whole walk.now) }
    ensures index { (numbered_entry I.whole result).value ≡ index }
    ensures anchor { IsAnchor (plain_steps I.whole walk.now) (numbered_entry I.whole result).edge }
{
    edge_along(&lowest_step(walk), index)
}

/// Returns the step along the lowest edge at the leftmost lowest point of a walk.
pub(crate) fn lowest_step<I: IntNumber>(walk: &[Step<I>]) -> Step<I>
    requires some { 0 < length walk.now }
    requires long { All (IsLong I.limit) (plain_steps I.whole walk.now) }
    ensures among { Contains (plain_steps I.whole walk.now) (plain_step I.whole result) }
    ensures anchor { IsAnchor (plain_steps I.whole walk.now) (edge_of (plain_step I.whole result)) }
{
    let mut lowest = walk[0];
    for i in 0..walk.len() {
        let step = walk[i];
        if compare_steps(step, lowest).is_lt() {
            lowest = step;
        }
    }
    lowest
}

// Compares the edges of two steps: `Less` exactly where the first is anchored before the second.
fn compare_steps<I: IntNumber>(s: Step<I>, t: Step<I>) -> Ordering
    requires one { IsLong I.limit (plain_step I.whole s) }
    requires other { IsLong I.limit (plain_step I.whole t) }
    ensures { is_lt result ≡ is_anchored_before (edge_of (plain_step I.whole s)) (edge_of (plain_step I.whole t)) }
{
    compare_starts(&edge_along(&s, 0), &edge_along(&t, 0))
}
