//! Laws of the calls.

ghost use Rattle.polyover_calls.specs.Laws.{SnappedNeverUnsettled};
ghost use Rattle.polyover_calls.specs.PreparedLaws.{AskingsAreOne, BareCanBeAsked};
ghost use Rattle.polyover_calls.specs.RelatedContours.{BitsTellOfContours};

use overlay_geom::number::IntNumber;

/// No call that splits edges by snap rounding, with the number 0 for its solver, ends with `NotSettled`, the code 8. No
/// other status has that code.
pub fn snapped_never_unsettled()
    ensures { SnappedNeverUnsettled }
{}

/// Two answers of `polyover_prepared_locate` for equal points and places are equal, and so are their statuses. So it is
/// of one prepared shape, and of two whose edges bound the shape of one arrangement.
pub fn one_asking<I: IntNumber>()
    ensures { AskingsAreOne I.whole I.limit }
{}

/// A prepared shape without parts can be asked, and each point lies outside it.
pub fn bare_can_be_asked()
    ensures { BareCanBeAsked }
{}

/// Bits that `polyover_relate` writes tell of the contours in the arrays. They are those of the contours where the
/// edges that these give meet only in whole points or overlap. For any contours they tell of the points more than k/2
/// away from all of them, in x or in y, where k rounds moved some point: by snap rounding k is at most 1.
pub fn bits_tell_of_contours<I: IntNumber>()
    ensures { BitsTellOfContours I.whole I.limit }
{}
