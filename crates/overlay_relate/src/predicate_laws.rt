//! How the predicates of one arrangement hang together, and what they have to do with overlays and with the contours
//! as added.

ghost use Rattle.overlay_relate.specs.Closures.{ClosuresAreClosedRegions};
ghost use Rattle.overlay_relate.specs.Exchanged.{ExchangingKeepsArrangements};
ghost use Rattle.overlay_relate.specs.GivenRelations.{QueriesTellOfGivenEdges};
ghost use Rattle.overlay_relate.specs.PathRelations.{ArrangementsTellOfPaths, ArrangementsTellOfPathClosures};
ghost use Rattle.overlay_relate.specs.PredicateLaws.{TouchesIsIntersectsAlone, PointIntersectsTouches};
ghost use Rattle.overlay_relate.specs.PredicateLaws.{WithinInteriorsIntersect, EmptyIsWithinNothing};
ghost use Rattle.overlay_relate.specs.PredicateLaws.{DisjointIsNoIntersection, CoversIsWithinExchanged};
ghost use Rattle.overlay_relate.specs.PredicateLaws.{RegionsTellPredicates, NothingHoldsWithoutEdges};

/// Shapes touch exactly where they intersect and their interiors do not.
pub fn touches_is_intersects_alone()
    ensures { TouchesIsIntersectsAlone }
{}

/// Of edges that lead forward, meet in ends alone and have balanced counts, shapes that meet in single points alone
/// touch.
pub fn point_intersects_touches()
    ensures { PointIntersectsTouches }
{}

/// Where the subject lies within the clip, the interiors intersect.
pub fn within_interiors_intersect()
    ensures { WithinInteriorsIntersect }
{}

/// A subject that fills no point off the edges lies within nothing.
pub fn empty_is_within_nothing()
    ensures { EmptyIsWithinNothing }
{}

/// Shapes are disjoint exactly where they do not intersect.
pub fn disjoint_is_no_intersection()
    ensures { DisjointIsNoIntersection }
{}

/// The subject covers the clip exactly where, with the two exchanged, the subject lies within the clip.
pub fn covers_is_within_exchanged()
    ensures { CoversIsWithinExchanged }
{}

/// An arrangement of the edges of paths, with subject and clip exchanged in each count, is one of the paths with the
/// two exchanged. An arrangement is also one of the paths in another order.
pub fn exchanging_keeps_arrangements()
    ensures { ExchangingKeepsArrangements }
{}

/// The interiors intersect exactly where the region of `Intersect` has a point off the edges. The subject lies within
/// the clip exactly where the region of `Subject` has such a point and that of `Difference` has none.
pub fn regions_tell_predicates()
    ensures { RegionsTellPredicates }
{}

/// Without edges no predicate holds.
pub fn nothing_holds_without_edges()
    ensures { NothingHoldsWithoutEdges }
{}

/// In an arrangement the closure of a shape's interior is its closed region. So shapes intersect, touch, meet in single
/// points or are disjoint exactly where the closures of their interiors do.
pub fn closures_are_closed_regions()
    ensures { ClosuresAreClosedRegions }
{}

/// Answers about relations are those of the edges as given, where these meet only in whole points or overlap. For any
/// edges they tell of the points more than k/2 away from all of them, in x or in y: where a round of snap rounding
/// moves some point k is 1, and else the number of rounds that move some.
pub fn queries_tell_of_given_edges()
    ensures { QueriesTellOfGivenEdges }
{}

/// Where the edges are those of closed paths, with points on one line kept or dropped, the answers tell so of the paths
/// themselves: of a new builder, and of one call about two resources.
pub fn arrangements_tell_of_paths()
    ensures interiors { ArrangementsTellOfPaths }
    ensures closures { ArrangementsTellOfPathClosures }
{}
