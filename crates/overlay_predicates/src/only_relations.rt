//! Exact answers are the only ones that their contracts allow.

ghost use Rattle.overlay_predicates.specs.Determined.{OneExactAnswer, OneExactAnswerOfPaths};

/// Two exact answers that tell of the same content are equal. So are two that tell of the same paths.
pub fn one_exact_answer()
    ensures contents { OneExactAnswer }
    ensures paths { OneExactAnswerOfPaths }
{}
