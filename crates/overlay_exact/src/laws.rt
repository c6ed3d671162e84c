//! Laws of the parts of an edge, and of its meeting points.

ghost use Rattle.overlay_exact.specs.MetLaws.{MeetingsAreTold};
ghost use Rattle.overlay_exact.specs.MetTotals.{MetTellTotals, MetTellRises, MetTellStarts, MetTellEnds};
ghost use Rattle.overlay_exact.specs.PartLaws.{PointsLieAtParts, PartsOrderPoints};
ghost use Rattle.overlay_exact.specs.PieceOrder.{PiecesFollowEachOther, PlainPointsLieInPieces};
ghost use Rattle.overlay_exact.specs.PlacesAlong.{MeetingsTellPlaces};

/// The points of an edge are those that lie some part of the way along it.
pub fn points_lie_at_parts()
    ensures { PointsLieAtParts }
{}

/// Two points of an edge compare, by x and then by y, as the parts at which they lie. So points at equal parts are
/// equal.
pub fn parts_order_points()
    ensures { PartsOrderPoints }
{}

/// The meeting points found of an edge of an ascending list are the points in which another edge of the list meets it.
pub fn meetings_are_told()
    ensures { MeetingsAreTold }
{}

/// The places of an edge, in their order along it, are its start, the groups of its meeting points, and its end. A
/// piece leads from each to the next.
pub fn meetings_tell_places()
    ensures { MeetingsTellPlaces }
{}

/// The pieces of an edge follow each other from its start to its end. Each has a point between its ends, and no plain
/// point is a place.
pub fn pieces_follow_each_other()
    ensures { PiecesFollowEachOther }
{}

/// Each plain point of an edge lies within a piece of it.
pub fn plain_points_lie_in_pieces()
    ensures { PlainPointsLieInPieces }
{}

/// A sum over the edges that meet an edge at a place is a sum over its meeting points there.
pub fn met_tell_totals()
    ensures { MetTellTotals }
{}

/// So are the sums by which the windings beside an edge change at a place.
pub fn met_tell_rises()
    ensures { MetTellRises }
{}

/// The edges that lead on along an edge from its start are met there.
pub fn met_tell_starts()
    ensures { MetTellStarts }
{}

/// The edges that come up along an edge to its end are met there.
pub fn met_tell_ends()
    ensures { MetTellEnds }
{}
