//! Meeting points of edges.

ghost use Rattle.overlay_plane.specs.Meetings.{SettledByMeetingPoints};
ghost use Rattle.overlay_plane.specs.Arrangements.{CuttingIsARound};

/// A list is settled exactly where each meeting point of two different edges is an end of both.
pub fn settled_by_meeting_points()
    ensures { SettledByMeetingPoints }
{}

/// Merged edges cut through the points computed pair by pair are the result of a cutting round.
pub fn cutting_is_a_round()
    ensures { CuttingIsARound }
{}
