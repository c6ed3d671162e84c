//! Plain points: inner points of an edge where no other edge meets it.

ghost use Rattle.overlay_scaled.specs.Pieces.{PiecesArePlain, PiecesHaveOneWinding};
ghost use Rattle.overlay_scaled.specs.PlainContacts.{ExactContacts};
ghost use Rattle.overlay_scaled.specs.PlainPoints.{PlainPointsTellRules};
ghost use Rattle.overlay_scaled.specs.PlainRelations.{PlainPointsTellRelations};

/// The points of a piece between its ends are plain.
pub fn pieces_are_plain()
    ensures { PiecesArePlain }
{}

/// Each side of a piece has one winding between the ends of the piece.
pub fn pieces_have_one_winding()
    ensures { PiecesHaveOneWinding }
{}

/// A rule on the windings holds somewhere off the edges exactly where it holds beside a plain point of the merged
/// edges.
pub fn plain_points_tell_rules()
    ensures { PlainPointsTellRules }
{}

/// Whether interiors intersect, and whether a shape lies within the other, is told by the plain points of the merged
/// edges.
pub fn plain_points_tell_relations()
    ensures { PlainPointsTellRelations }
{}

/// Whether the shapes of an exact arrangement intersect, touch or meet in single points is told by the plain points and
/// the pieces of the list as given.
pub fn exact_contacts()
    ensures { ExactContacts }
{}
