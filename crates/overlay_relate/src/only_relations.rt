//! Locations and relations are the only ones that their contracts allow.

ghost use Rattle.overlay_relate.specs.Determined.{OneLocationBy, OneLocationIn, OneLocationAmong, OneLocationUnder};
ghost use Rattle.overlay_relate.specs.Determined.{OneAnswerOfRelations, OneAnswerOfPredicate, OneAnswerOfDisjoint};
ghost use Rattle.overlay_relate.specs.Determined.{OneListOfInsides};

/// Two lists of locations of the same points, in one shape or among the same shapes, are equal. So are two locations of
/// a point in the shape of one arrangement, and two by the same edges.
pub fn one_location()
    ensures shape { OneLocationIn }
    ensures shapes { OneLocationAmong }
    ensures under { OneLocationUnder }
    ensures by_edges { OneLocationBy }
{}

/// Two answers that tell of the relations of one arrangement are equal.
pub fn one_answer_of_relations()
    ensures { OneAnswerOfRelations }
{}

/// Two answers that tell of one predicate of one arrangement are equal, `disjoint` too.
pub fn one_answer_of_predicate()
    ensures predicate { OneAnswerOfPredicate }
    ensures disjoint { OneAnswerOfDisjoint }
{}

/// Two lists that tell of points off all edges whether they are inside are equal.
pub fn one_list_of_insides()
    ensures { OneListOfInsides }
{}
