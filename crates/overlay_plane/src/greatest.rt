//! The winding at a point, from the greatest edge strictly below it.

ghost use Rattle.overlay_plane.specs.GreatestBelow.{WindingAboveTheGreatestBelow};

/// The winding at a point is the winding above the greatest edge strictly below it. It is 0 where no edge is strictly
/// below.
pub fn winding_above_the_greatest_below()
    ensures { WindingAboveTheGreatestBelow }
{}
