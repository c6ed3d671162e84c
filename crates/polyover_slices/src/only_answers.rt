//! Slices that options ask for are the only answer.

ghost use Rattle.polyover_slices.specs.Asked.{SlicesAreAskedOnce};

use overlay_geom::integer::OverlayInt;

/// Two slicings of the same arrays by the same options are equal by snap rounding, and end with one status, unless
/// memory is refused.
pub fn slices_are_asked_once<I: OverlayInt>()
    ensures { SlicesAreAskedOnce I.whole I.limit I.Wide.width I.WideUInt.natural }
{}
