//! What answers about the relations of two resources tell of their paths, as these were given.

ghost use Rattle.i_overlay.specs.PathAnswers.{AnswersTellOfPaths, AllRelationsTellOfPaths};

/// Answers about relations are those of the paths, where the edges that these give meet only in whole points or
/// overlap. There shapes intersect, touch, meet in single points or are disjoint where the closures of their interiors
/// do. For any paths the answers tell of the points more than k/2 away from all of them, in x or in y, where k rounds
/// moved some point: by snap rounding k is at most 1. So do the answers to all relations, with `covers`.
pub fn answers_tell_of_paths()
    ensures one { AnswersTellOfPaths }
    ensures all { AllRelationsTellOfPaths }
{}
