//! Where points are told to lie is the only answer.

ghost use Rattle.polyover_located.specs.Laws.{ExactAskingsAreOne, PreparedLocateOnce, BareIsOutside};

use overlay_geom::integer::OverlayInt;

/// Two shapes of the same contours under one fill rule tell the same of the same points. So does one shape twice.
pub fn locations_are_told_once<I: OverlayInt>()
    ensures shapes { PreparedLocateOnce I.whole I.limit }
    ensures asking { ExactAskingsAreOne I.whole I.limit }
{}

/// A shape that is all zero can be asked, and each point lies outside it.
pub fn bare_is_outside()
    ensures { BareIsOutside }
{}
