//! What calls answer that leave no builder is the only answer to their arguments, by snap rounding.

ghost use Rattle.i_overlay.specs.Determined.{OneAnswer, OneHierarchy, OneListOfEdges, OneSimplification};
ghost use Rattle.i_overlay.specs.Determined.{OneAnswerOfEach, OneListOfRelations, OneAnswerWhereWhole};
ghost use Rattle.i_overlay.specs.Determined.{AnsweredPathsAreRefusedByMemoryAlone, ToldPathsAreRefusedByMemoryAlone};
ghost use Rattle.overlay_plane.specs.Predicates.{IsDisjoint, Covers};
ghost use Rattle.overlay_relate.specs.PredicateQueries.{Holds};
ghost use Rattle.overlay_relate.specs.declared.predicate.Predicate.{Predicate};

/// Two results of the same paths by snap rounding, asked for alike, are equal. So are two hierarchies, two lists of
/// edges, two simplifications, and two answers of predicates.
pub fn one_answer()
    ensures shapes { OneAnswer }
    ensures hierarchies { OneHierarchy }
    ensures edges { OneListOfEdges }
    ensures simplified { OneSimplification }
    ensures predicates { OneAnswerOfEach }
    ensures relations { OneListOfRelations }
{}

/// Two answers to paths whose edges meet in whole points alone, or overlap, are equal, whichever solvers give them.
pub fn one_answer_where_whole()
    ensures { OneAnswerWhereWhole }
{}

/// Paths to which snap rounding gives an answer are refused only where memory is.
pub fn memory_alone_refuses()
    ensures answered { AnsweredPathsAreRefusedByMemoryAlone }
    ensures predicates { (p : Predicate) → ToldPathsAreRefusedByMemoryAlone (Holds p) }
    ensures disjoint { ToldPathsAreRefusedByMemoryAlone IsDisjoint }
    ensures covers { ToldPathsAreRefusedByMemoryAlone Covers }
{}
