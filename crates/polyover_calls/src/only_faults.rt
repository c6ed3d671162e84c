//! The status that tells what is wrong with the arguments of a call is the only end of each run with them.

ghost use Rattle.polyover_calls.specs.EachFault.{CallsTellOneFault, ResultsTellOneFault};

use overlay_geom::integer::OverlayInt;

/// One status tells what is wrong with the arguments of a call. Each run with them ends so, whatever room there is, and
/// whether or not memory is there.
pub fn one_fault_of_calls<I: OverlayInt>()
    ensures calls { CallsTellOneFault I.whole I.limit I.Wide.width I.WideUInt.natural }
    ensures results { ResultsTellOneFault I.whole I.limit I.Wide.width I.WideUInt.natural }
{}
