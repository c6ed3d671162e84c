//! What exact relations are told is the only answer.

ghost use Rattle.polyover_exact.specs.Determined.{RelationsAreToldOnce, OneRelationIsToldOnce, OneExactRelationOfAll};

use overlay_exact::exact_int::ExactInt;

/// Two calls with the same arguments write the same bits and end with one status, unless memory is refused.
pub fn relations_are_told_once<I: ExactInt>()
    ensures { RelationsAreToldOnce I.whole I.limit }
{}

/// Two calls that ask for one relation write the same answer and end with one status, unless memory is refused. The
/// relation holds where `relate_exactly` gives its bit.
pub fn one_relation_is_told_once<I: ExactInt>()
    ensures once { OneRelationIsToldOnce I.whole I.limit }
    ensures of_all { OneExactRelationOfAll I.whole I.limit }
{}
