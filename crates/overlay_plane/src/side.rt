//! Windings along the sides of an edge.

ghost use Rattle.overlay_plane.specs.Windings.{OneWindingAlongASide, OneWindingAtInnerPoints};

/// The counts of the edges under an edge have one sum along the whole edge: the winding below it.
pub fn one_winding_along_a_side()
    ensures { OneWindingAlongASide }
{}

/// The winding at an inner point of an edge that is not vertical is the winding below the edge.
pub fn one_winding_at_inner_points()
    ensures { OneWindingAtInnerPoints }
{}
