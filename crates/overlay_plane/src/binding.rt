//! The shape that a hole belongs to: anchors, the next edge below them, and parents.

ghost use Rattle.overlay_plane.specs.Anchors.{AnchorsExist, AnchorsLeadOn, BelowAnAnchorIsUnder, LowerAtIsUnder};
ghost use Rattle.overlay_plane.specs.Binding.{HolesHaveNext, NextIsAnchoredBefore};
ghost use Rattle.overlay_plane.specs.Parents.{HolesHaveParents, ShapesHaveEachWalk};

/// Every contour has an anchor.
pub fn anchors_exist()
    ensures { AnchorsExist }
{}

/// A contour that walks along no edge twice, and whose edges meet in ends alone, has an anchor that is not vertical.
pub fn anchors_lead_on()
    ensures { AnchorsLeadOn }
{}

/// Among edges that meet in ends alone, an edge below an anchor is under the anchor's edge just right of its point.
pub fn below_an_anchor_is_under()
    ensures { BelowAnAnchorIsUnder }
{}

/// Of two edges over one x-coordinate that meet in ends alone, the lower is under the other just right of it. Edges
/// compare by height there, then by slope.
pub fn lower_at_is_under()
    ensures { LowerAtIsUnder }
{}

/// Each hole that selected steps are cut into has a next filled-above edge below it.
pub fn holes_have_next()
    ensures { HolesHaveNext }
{}

/// Each hole that selected steps are cut into has a parent, so none is without a parent.
pub fn holes_have_parents()
    ensures { HolesHaveParents }
{}

/// Among contours, the contour with the next edge below a hole is anchored before the hole.
pub fn next_is_anchored_before()
    ensures { NextIsAnchoredBefore }
{}

/// Where the outlines of contours are numbered in order and no hole is lost, the shapes have each contour exactly once.
pub fn shapes_have_each_walk()
    ensures { ShapesHaveEachWalk }
{}
