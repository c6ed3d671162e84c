//! The text that answers a query is the only text that its contract allows of one arrangement.

ghost use Rattle.polyover_engine.specs.OneText.{OneTextOfOverlay, OneTextOfHierarchy};
ghost use Rattle.polyover_engine.specs.OneText.{OneTextOfEdges, OneTextOfRelations, OneTextOfClip};
ghost use Rattle.polyover_engine.specs.OneText.{OneTextOfSlices, OneTextOfTiles, OneTextOfInsides};

/// Two answers of an overlay of one arrangement have one text.
pub fn one_text_of_overlay()
    ensures { OneTextOfOverlay }
{}

/// So have two hierarchies.
pub fn one_text_of_hierarchy()
    ensures { OneTextOfHierarchy }
{}

/// The edges and the relations of one arrangement have one text.
pub fn one_text_of_arrangement()
    ensures edges { OneTextOfEdges }
    ensures relations { OneTextOfRelations }
{}

/// One text tells which parts of lines a clip leaves in one arrangement, and into which shapes or tiles the subject is
/// sliced.
pub fn one_text_of_lines()
    ensures clip { OneTextOfClip }
    ensures slices { OneTextOfSlices }
    ensures tiles { OneTextOfTiles }
{}

/// One text tells which points are inside the subject, where none is on its edges.
pub fn one_text_of_insides()
    ensures { OneTextOfInsides }
{}
