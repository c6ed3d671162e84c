//! The leftmost lowest point of the edges that count.

ghost use Rattle.overlay_plane.specs.Leftmost.{NothingBeforeTheLeftmost};

/// The winding is 0 up to that point, above the top edge there, and below the lowest edge there.
pub fn nothing_before_the_leftmost()
    ensures { NothingBeforeTheLeftmost }
{}
