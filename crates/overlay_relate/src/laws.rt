//! The law that joins the two questions about a point.

ghost use Rattle.overlay_relate.specs.Laws.{InsideOffEdges};

/// A point on none of the edges is inside exactly where its location is `Inside`. This holds of a contour, of a shape,
/// and of several shapes.
pub fn inside_off_edges()
    ensures { InsideOffEdges }
{}
