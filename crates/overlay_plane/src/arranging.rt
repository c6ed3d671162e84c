//! Arrangements: laws that follow from the rounds by which they are reached.

ghost use Rattle.overlay_plane.specs.Arrangements.{ArrangementsHoldChains, WholeMeetingsAreExact};
ghost use Rattle.overlay_plane.specs.Arrangements.{ArrangementsKeepBalance, ArrangedStaysArranged};
ghost use Rattle.overlay_plane.specs.FarPoints.{ArrangementsKeepFarPoints, FarPointsWindAsWanted};
ghost use Rattle.overlay_plane.specs.FarSides.{ArrangementsKeepFarSides, SnapsKeepSidesBeside};
ghost use Rattle.overlay_plane.specs.MarkedChains.{MarkedChainsStay};

/// The chains of the edges keep their ends, stay near, and make the counts of the arrangement.
pub fn arrangements_hold_chains()
    ensures { ArrangementsHoldChains }
{}

/// Where edges meet only in whole points or overlap, rounds reach at most one list. It moves no point and changes no
/// winding.
pub fn whole_meetings_are_exact()
    ensures { WholeMeetingsAreExact }
{}

/// An arrangement keeps balanced counts.
pub fn arrangements_keep_balance()
    ensures { ArrangementsKeepBalance }
{}

/// An arrangement of an arrangement is the same list.
pub fn arranged_stays_arranged()
    ensures { ArrangedStaysArranged }
{}

/// An arrangement has an edge along each step of a marked edge's chain, and that edge has the mark too.
pub fn marked_chains_stay()
    ensures { MarkedChainsStay }
{}

/// Far from the edges nothing changes: where k rounds move points, an arrangement has no edge at a point more than k/2
/// away from all edges, in x or in y, and winds round it as they did.
pub fn arrangements_keep_far_points()
    ensures { ArrangementsKeepFarPoints }
{}

/// Steps that wind as rules want of an arrangement, off its edges, wind as they want of the edges as they were given,
/// at each point far from these.
pub fn far_points_wind_as_wanted()
    ensures { FarPointsWindAsWanted }
{}

/// Each side stays as it is far from its own edges: where k rounds move points, its winding stays at each point more
/// than k/2 away from the edges that count for it, wherever the other side's edges lie.
pub fn arrangements_keep_far_sides()
    ensures { ArrangementsKeepFarSides }
{}

/// A round of snap rounding keeps a side's winding at each point in whose unit square no edge of this side has a point;
/// the square includes its left and lower sides.
pub fn snaps_keep_sides_beside()
    ensures { SnapsKeepSidesBeside }
{}
