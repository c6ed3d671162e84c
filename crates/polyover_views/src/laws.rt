//! Laws of graphs beside the calls that are given contours.

ghost use Rattle.polyover_views.specs.Laws.{GraphsAnswerAsCalls};

use overlay_geom::integer::OverlayInt;

/// A graph of contours hands out what a call on the contours may hand out, for any rule and options with its solver.
pub fn graphs_answer_as_calls<I: OverlayInt>()
    ensures { GraphsAnswerAsCalls I.whole I.limit I.Wide.width I.WideUInt.natural }
{}
