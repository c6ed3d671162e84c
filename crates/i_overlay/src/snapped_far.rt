//! By snap rounding answers wind as asked of what was given, round each point more than half a unit away from it.

ghost use Rattle.i_overlay.specs.SnappedFar.{SnappedWindsRoundGiven, SnappedResultWinds, SnappedHierarchyWinds};
ghost use Rattle.i_overlay.specs.SnappedFar.{SnappedSimplifiedWinds, SnappedSlicesWind, SnappedTilesWind};

/// By snap rounding take a point more than half a unit away, in x or in y, from what was given. With the minimum area
/// zero a result, a hierarchy and simplified shapes wind round it once where the rules hold of the windings of the
/// given paths, and zero times elsewhere. So do the contours of a query of a builder, of the edges that it held before.
/// So do slices and tiles, of the contours of the shape, where the point is as far from the strings or the lines.
pub fn snapped_winds_far()
    ensures given { SnappedWindsRoundGiven }
    ensures result { SnappedResultWinds }
    ensures hierarchy { SnappedHierarchyWinds }
    ensures simplified { SnappedSimplifiedWinds }
    ensures slices { SnappedSlicesWind }
    ensures tiles { SnappedTilesWind }
{}
