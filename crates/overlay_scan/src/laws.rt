//! Laws of look-ups.

ghost use Rattle.overlay_scan.specs.Laws.{LookUpGivesTheGreatest};

/// In a list from bottom to top, the last entry below an edge's start is the greatest entry below it.
pub fn look_up_gives_the_greatest<V: Copy>()
    ensures { LookUpGivesTheGreatest V }
{}
