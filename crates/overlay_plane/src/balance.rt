//! Balanced counts: their sources, and the operations that keep them.

ghost use Rattle.overlay_plane.specs.Balance.{ChainsTelescope, ContoursAreBalanced};
ghost use Rattle.overlay_plane.specs.Balance.{AddedContoursAreBalanced, JoiningKeepsBalance};
ghost use Rattle.overlay_plane.specs.Balance.{AddingKeepsBalance, MergingKeepsBalance};

/// Along a chain of steps, a number given to each point rises in total by its difference between the chain's end and
/// start.
pub fn chains_telescope()
    ensures { ChainsTelescope }
{}

/// The steps of a closed contour are balanced.
pub fn contours_are_balanced()
    ensures { ContoursAreBalanced }
{}

/// The counted edges of an added contour have balanced counts.
pub fn added_contours_are_balanced()
    ensures { AddedContoursAreBalanced }
{}

/// A list without edges has balanced counts, and two joined lists have them where both do.
pub fn joining_keeps_balance()
    ensures { JoiningKeepsBalance }
{}

/// A content keeps balanced counts where a contour is added.
pub fn adding_keeps_balance()
    ensures { AddingKeepsBalance }
{}

/// A merged list keeps balanced counts.
pub fn merging_keeps_balance()
    ensures { MergingKeepsBalance }
{}
