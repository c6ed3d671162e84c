//! Relations of two shapes, told by points of the plane or by edges, of an arrangement or of the edges as given.

ghost use Rattle.overlay_plane.specs.EdgePredicates.{RegionsReachEdges, EdgesTellPredicates};
ghost use Rattle.overlay_plane.specs.GivenPredicates.{OffIsFarByNothing, KeptPointsKeepRelations};
ghost use Rattle.overlay_plane.specs.GivenPredicates.{FarPointsTellRelations};

/// A rule on the windings holds at some point off the edges exactly where it holds on some side of an edge.
pub fn regions_reach_edges()
    ensures { RegionsReachEdges }
{}

/// On an arrangement with balanced counts, the predicates on points are equivalent to predicates on the filled sides of
/// the edges.
pub fn edges_tell_predicates()
    ensures { EdgesTellPredicates }
{}

/// A point is off all edges exactly where no edge has a point at no distance from it.
pub fn off_is_far_by_nothing()
    ensures { OffIsFarByNothing }
{}

/// Where a second list has no edge at the points off the first edges, and winds round them as these do, interiors
/// intersect, a shape lies within the other and a rule holds somewhere of both lists or of neither.
pub fn kept_points_keep_relations()
    ensures { KeptPointsKeepRelations }
{}

/// Where a second list keeps the points more than k/2 away from the first edges, a point of these that both shapes fill
/// tells that interiors intersect, and within and covers hold of all of these.
pub fn far_points_tell_relations()
    ensures { FarPointsTellRelations }
{}
