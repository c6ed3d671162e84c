//! Laws of the walk along an edge from meeting point to meeting point.

ghost use Rattle.overlay_given.specs.Laws.{WindingsAreKnownFromStarts, WindingsAreKnownPastPlaces};
ghost use Rattle.overlay_given.specs.Laws.{SidesTellInteriors, PlacesTellSharedPlaces};

/// The windings beside the first piece of an edge are those at its start, with the counts of the edges met there that
/// lead on to the right or along the edge.
pub fn windings_are_known_from_starts()
    ensures { WindingsAreKnownFromStarts }
{}

/// Past a place the windings beside an edge change by the counts of the edges met there: below, by whether they end on
/// the right, less whether they start there; above, by whether they start on the left, less whether they end there.
pub fn windings_are_known_past_places()
    ensures { WindingsAreKnownPastPlaces }
{}

/// The filled sides of all pieces tell the relations of the interiors of the content.
pub fn sides_tell_interiors()
    ensures { SidesTellInteriors }
{}

/// The sides at the meeting points tell whether borders of the subject alone and of the clip alone end at one place.
pub fn places_tell_shared_places()
    ensures { PlacesTellSharedPlaces }
{}
