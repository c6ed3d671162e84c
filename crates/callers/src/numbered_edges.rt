//! A sweep over edges with numbers.

ghost use Rattle.std.specs.Prelude.{OnOk};
ghost use Rattle.overlay_geom.specs.Lines.{plain_line};
ghost use Rattle.overlay_scan.specs.Scan.{IsOver, IsSweep, MayMoveTo, MeetsOthers, IsNewAmong, live_at};

use overlay_geom::error::OverlayError;
use overlay_geom::number::IntNumber;
use overlay_geom::path::IntLine;
use overlay_scan::scan::Scan;

/// Puts in an edge with a number, and begins anew where memory is refused.
pub fn put<I: IntNumber, S: Scan<I, usize>>(
    scan: &mut S,
    edge: IntLine<I>,
    number: usize,
    x: I,
) -> Result<(), OverlayError>
    requires state { IsSweep I.limit (S.content scan.old) }
    requires moves { MayMoveTo (I.whole x) (S.content scan.old) }
    requires over { IsOver I.limit (I.whole x) (plain_line I.whole edge) }
    requires meets { MeetsOthers (plain_line I.whole edge) (live_at (I.whole x) (S.content scan.old).entries) }
    requires fresh { IsNewAmong (plain_line I.whole edge) (live_at (I.whole x) (S.content scan.old).entries) }
    ensures { OnOk result (IsSweep I.limit (S.content scan.new)) }
{
    scan.insert(edge, number, x)
}
