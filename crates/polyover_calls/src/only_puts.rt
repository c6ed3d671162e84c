//! What becomes of the arrays of a caller is the only thing that a contract allows, and so is the status that tells a
//! fault of the arguments.

ghost use Rattle.polyover_calls.specs.Determined.{ShapesPutOnce, LinkedPutOnce, PathsPutOnce, EdgesPutOnce};
ghost use Rattle.polyover_calls.specs.Determined.{OneFault, FaultyArgumentsHaveNoAnswer};

use overlay_geom::integer::OverlayInt;

/// One answer leaves the arrays of a caller in one way, and tells one status.
pub fn one_put<I>()
    ensures shapes { ShapesPutOnce I }
    ensures linked { LinkedPutOnce I }
    ensures paths { PathsPutOnce I }
    ensures edges { EdgesPutOnce I }
{}

/// What is wrong with the arguments of an overlay is told by one status, and then there is no answer.
pub fn one_fault<I: OverlayInt>()
    ensures one { OneFault I.WideUInt I.whole I.limit }
    ensures no_answer { FaultyArgumentsHaveNoAnswer I.WideUInt I.whole I.limit }
{}
