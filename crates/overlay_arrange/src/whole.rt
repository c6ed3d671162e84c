//! Tests whether edges meet in whole points alone.

ghost use Rattle.std.specs.Prelude.{◌↔◌, IsTrue, All};
ghost use Rattle.overlay_plane.specs.Meetings.{MeetInWholePoints};
ghost use Rattle.overlay_order.specs.Content.{plain_edges, IsHeld};
ghost use Rattle.overlay_arrange.specs.Meetings.{plain_meetings, AreMeetings};

use crate::meetings::Meeting;
use overlay_geom::number::IntNumber;
use overlay_order::count::EdgeCount;
use overlay_order::edge::CountedEdge;
use overlay_parts::lines::is_on_line;

/// Returns whether the edges meet in whole points alone, or overlap. Then each of the given meetings lies on the line
/// of its edge, so no point was rounded to another point.
pub(crate) fn are_whole<I: IntNumber, C: EdgeCount>(
    edges: &[CountedEdge<I, C>],
    meetings: &[Meeting<I>],
) -> bool
    requires held { All (IsHeld I.limit) (plain_edges I.whole C.counts edges.now) }
    requires meetings { AreMeetings (plain_edges I.whole C.counts edges.now) (plain_meetings I.whole meetings.now) }
    ensures { IsTrue result ↔ MeetInWholePoints (plain_edges I.whole C.counts edges.now) }
{
    for m in meetings {
        if !is_on_line(&edges[m.place], m.point) {
            return false;
        }
    }
    true
}
