//! The windings beside an edge, piece by piece.

ghost use Rattle.overlay_scaled.specs.BesidePieces.{WindingAlongALine, WindingsBesidePieces, CountsAlongPieces};
ghost use Rattle.overlay_scaled.specs.BesidePieces.{WindingsPastAPlace};

/// The winding at a point of a line is told by the edges that lead across the line before the point.
pub fn winding_along_a_line()
    ensures { WindingAlongALine }
{}

/// The winding below a piece is that at its start, or at its end, put right by the edges through that place.
pub fn windings_beside_pieces()
    ensures { WindingsBesidePieces }
{}

/// The edges that run along a piece are those that lead on from its start, or come up to its end, along one line.
pub fn counts_along_pieces()
    ensures { CountsAlongPieces }
{}

/// From one piece of an edge to the next the windings below and above change by the edges across the place between
/// them, and by those that start or end there along the edge.
pub fn windings_past_a_place()
    ensures { WindingsPastAPlace }
{}
