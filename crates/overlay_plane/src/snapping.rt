//! Snap rounding: merged edges that each pass through the hot points whose pixels they meet are settled after one pass.

ghost use Rattle.overlay_plane.specs.PixelSteps.{MeetingStepsPassPixels};
ghost use Rattle.overlay_plane.specs.SnapPoints.{PixelsMetByTest, SnappingIsASnap};
ghost use Rattle.overlay_plane.specs.Snaps.{SnapsKeepWindings, SnapsSettle, SnapsStayNear};

/// Where the steps between rounded points meet, so do the pieces between the points, or a piece passes through the
/// pixel of an end of the other step.
pub fn meeting_steps_pass_pixels()
    ensures { MeetingStepsPassPixels }
{}

/// The edges that a snap leaves, merged, are settled.
pub fn snaps_settle()
    ensures { SnapsSettle }
{}

/// Each chain of a snap stays within half a unit of its edge, in x and in y, and the edge stays so near its chain.
pub fn snaps_stay_near()
    ensures { SnapsStayNear }
{}

/// A snap keeps the windings at each point whose unit square no edge meets.
pub fn snaps_keep_windings()
    ensures { SnapsKeepWindings }
{}

/// One cross product tells whether an edge meets the pixel of a whole point.
pub fn pixels_met_by_test()
    ensures { PixelsMetByTest }
{}

/// Merged edges that are not settled, cut through the computed hot points whose pixels they meet, are the result of a
/// snap.
pub fn snapping_is_a_snap()
    ensures { SnappingIsASnap }
{}
