//! What a graph hands out is the only answer to a question, and by snap rounding there is one graph of contours.

ghost use Rattle.polyover_views.specs.Laws.{GraphsAnswerOnce, GraphsAreMadeOnce};

use overlay_geom::integer::OverlayInt;

/// Two answers of a graph of contours to one question are equal, whichever solver arranged them, unless memory is
/// refused.
pub fn graphs_answer_once<I: OverlayInt>()
    ensures { GraphsAnswerOnce I.whole I.limit I.Wide.width I.WideUInt.natural }
{}

/// Two graphs of the same contours are equal by snap rounding, and are made with one status, unless memory is refused.
pub fn graphs_are_made_once<I: OverlayInt>()
    ensures { GraphsAreMadeOnce I.whole I.limit }
{}
