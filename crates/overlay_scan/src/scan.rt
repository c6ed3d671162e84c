//! The interface of a sweep from left to right to its live edges.

ghost use Rattle.std.specs.Prelude.{◌≡◌, Some, OnOk, OnErr, IsOkUnless};
ghost use Rattle.overlay_geom.specs.Lines.{plain_line};
ghost use Rattle.overlay_scan.specs.Scan.{Sweep, empty_sweep, live_at, moved_to};
ghost use Rattle.overlay_scan.specs.Scan.{MayMoveTo, IsOver, IsAsked, IsSweep, IsPutIn};
ghost use Rattle.overlay_scan.specs.Scan.{MeetsOthers, IsNewAmong, value_below};
ghost use Rattle.overlay_scan.specs.Scan.{IsCallableOn, IsAnsweredBy, AnswersRise, value_up_to};

use overlay_geom::error::OverlayError;
use overlay_geom::number::IntNumber;
use overlay_geom::path::IntLine;
use std::cmp::Ordering;

/// The edges over a vertical line that moves from left to right, in order from bottom to top, each with a value. An
/// edge is given by its two ends, the smaller end first.
///
/// Each call but `clear` moves the line to an x, which does not fall until `clear`. Edges that end at or before x are
/// expired: they no longer count, and any call may drop them.
pub trait Scan<I: IntNumber, V: Copy> {
    // The entries from bottom to top, and the position of the line.
    ghost content: { Self → Sweep V };

    /// Moves to x and inserts an edge over x, `a.x <= x < b.x`, with its value. The edge goes above the edges that are
    /// under it just right of x, and below the others. It meets each live edge in ends alone, and equals none. Its ends
    /// are in range. The only refusal is `Memory`, after which the live edges are as they were.
    fn insert(&mut self, edge: IntLine<I>, value: V, x: I) -> Result<(), OverlayError>
        requires state { IsSweep I.limit (content self.old) }
        requires moves { MayMoveTo (I.whole x) (content self.old) }
        requires over { IsOver I.limit (I.whole x) (plain_line I.whole edge) }
        requires meets { MeetsOthers (plain_line I.whole edge) (live_at (I.whole x) (content self.old).entries) }
        requires fresh { IsNewAmong (plain_line I.whole edge) (live_at (I.whole x) (content self.old).entries) }
        ensures ok { OnOk result (IsPutIn (I.whole x) (record { edge = plain_line I.whole edge; value = value })
            (live_at (I.whole x) (content self.old).entries) (content self.new).entries) }
        ensures err { OnErr result (content self.new ≡ moved_to (I.whole x) (content self.old)) }
        ensures reached { (content self.new).reached ≡ Some (I.whole x) }
        ensures state { IsSweep I.limit (content self.new) }
        ensures only { IsOkUnless result OverlayError.Memory };

    /// Moves to x, where the asked edge starts, and returns the value of the highest live edge below it, or `default`
    /// if there is none. Below it are the edges strictly below its start, and those that start there with a smaller
    /// slope. The asked edge leads from its smaller to its larger end. It may be vertical: then each edge that starts
    /// there has a smaller slope. It meets each other live edge in ends alone. Its ends are in range. It takes no
    /// memory.
    fn first_less(&mut self, x: I, default: V, edge: IntLine<I>) -> V
        requires state { IsSweep I.limit (content self.old) }
        requires moves { MayMoveTo (I.whole x) (content self.old) }
        requires asked { IsAsked I.limit (I.whole x) (plain_line I.whole edge) }
        requires meets { MeetsOthers (plain_line I.whole edge) (live_at (I.whole x) (content self.old).entries) }
        ensures value { result ≡ value_below default (plain_line I.whole edge)
            (live_at (I.whole x) (content self.old).entries) }
        ensures content { content self.new ≡ moved_to (I.whole x) (content self.old) }
        ensures state { IsSweep I.limit (content self.new) };

    /// Moves to x and returns the value of the highest live edge for which `order` does not answer `Greater`, or
    /// `default` if there is none. From bottom to top `order` answers `Less`, then `Equal`, then `Greater`. It takes no
    /// memory.
    fn first_less_or_equal_by<F: Fn(IntLine<I>) -> Ordering + Drop>(
        &mut self,
        x: I,
        default: V,
        order: F,
    ) -> V
        requires state { IsSweep I.limit (content self.old) }
        requires moves { MayMoveTo (I.whole x) (content self.old) }
        requires callable { IsCallableOn I.whole (F.pre order) (live_at (I.whole x) (content self.old).entries) }
        ensures value { (answer : _) → IsAnsweredBy I.whole (F.post order) answer
            (live_at (I.whole x) (content self.old).entries)
            → AnswersRise answer (live_at (I.whole x) (content self.old).entries)
            → result ≡ value_up_to default answer (live_at (I.whole x) (content self.old).entries) }
        ensures content { content self.new ≡ moved_to (I.whole x) (content self.old) }
        ensures state { IsSweep I.limit (content self.new) };

    /// Drops all edges and starts a new sweep. It takes no memory.
    fn clear(&mut self)
        ensures { content self.new ≡ empty_sweep };
}
