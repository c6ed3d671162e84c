//! What a shape is simplified to, and whether it stays as it is given, is the only answer.

ghost use Rattle.polyover_simple.specs.Told.{ShapesAreToldOnce};

use overlay_geom::integer::OverlayInt;

/// Two simplifications of the same shape by the same options are equal by snap rounding, tell alike whether it stays as
/// it is given, and end with one status, unless memory is refused.
pub fn shapes_are_told_once<I: OverlayInt>()
    ensures { ShapesAreToldOnce I.whole I.limit I.Wide.width I.WideUInt.natural }
{}
