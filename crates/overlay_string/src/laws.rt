//! Laws of what clips of one arrangement give.

ghost use Rattle.overlay_string.specs.Laws.{EachPieceIsClippedOnce, PathsTakeEachPieceOnce};

/// The steps of the paths that a clip gives are the pieces that it keeps, each once.
pub fn paths_take_each_piece_once()
    ensures { PathsTakeEachPieceOnce }
{}

/// Take the paths of a clip inside the shape, those of an inverted clip, both without the boundary, and the pieces on
/// it. Together they have each piece of the strings once.
pub fn each_piece_is_clipped_once()
    ensures { EachPieceIsClippedOnce }
{}
