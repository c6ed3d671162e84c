//! What a call puts into the arrays of a caller is the only answer to its arguments, by snap rounding.

ghost use Rattle.polyover_calls.specs.OneAnswer.{OneOverlay, OneLinkedOverlay, OneListing, OneSimplificationOfArrays};
ghost use Rattle.polyover_calls.specs.OneAnswer.{OneSlicingOfArrays, OneTilingOfArrays, OneClipOfArrays, OneRelating};
ghost use Rattle.polyover_calls.specs.OneAnswer.{OneRelationOfAll};
ghost use Rattle.polyover_calls.specs.EndsOnce.{CallsEndOnce, ResultsEndOnce, ShapesArePreparedOnce};

use overlay_geom::integer::OverlayInt;

/// Two answers of a call to the same arguments leave equal arrays, and tell one status, by snap rounding. One relation
/// that is asked alone holds where `polyover_relate` gives its bit.
pub fn one_answer<I: OverlayInt>()
    ensures overlay { OneOverlay I.whole I.limit I.Wide.width I.WideUInt.natural }
    ensures hierarchy { OneLinkedOverlay I.whole I.limit I.Wide.width I.WideUInt.natural }
    ensures edges { OneListing I.whole I.limit }
    ensures simplify { OneSimplificationOfArrays I.whole I.limit I.Wide.width I.WideUInt.natural }
    ensures slice { OneSlicingOfArrays I.whole I.limit I.Wide.width }
    ensures tiles { OneTilingOfArrays I.whole I.limit I.Wide.width }
    ensures clip { OneClipOfArrays I.whole I.limit }
    ensures relate { OneRelating I.whole I.limit }
    ensures relate_one { OneRelationOfAll I.whole I.limit }
{}

/// Two runs of a call with the same arguments end alike by snap rounding, unless memory is refused: with one status,
/// and with equal arrays. Shapes that are prepared of the same contours are asked alike.
pub fn one_end<I: OverlayInt>()
    ensures calls { CallsEndOnce I.whole I.limit I.Wide.width I.WideUInt.natural }
    ensures results { ResultsEndOnce I.whole I.limit I.Wide.width I.WideUInt.natural }
    ensures prepared { ShapesArePreparedOnce I.whole I.limit }
{}
