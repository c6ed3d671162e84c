//! The hole round an island, and the links from shapes to the islands in their holes.

ghost use Rattle.overlay_plane.specs.Islands.{OneHoleIsRound, NoHoleIsNone, EachShapeIsChildOnce};

/// Among contours that can be bound, at most one hole is round each contour.
pub fn one_hole_is_round()
    ensures { OneHoleIsRound }
{}

/// No contour both has a hole round it and has none.
pub fn no_hole_is_none()
    ensures { NoHoleIsNone }
{}

/// Among contours placed in shapes, each shape is the child of at most one link.
pub fn each_shape_is_child_once()
    ensures { EachShapeIsChildOnce }
{}
