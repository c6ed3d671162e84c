//! Groups: orbits by the hand of the filled side, cut once more by the hand of the empty side.

ghost use Rattle.overlay_plane.specs.Groups.{WalksInsideGroupsAreSimple, OrbitsOfHoleGroupsAreInsideOne};
ghost use Rattle.overlay_plane.specs.Groups.{ContoursAreInsideGroups, GroupedCutsTakeEachOnce};

/// An orbit by the empty hand in a group is a contour that visits no point twice.
pub fn walks_inside_groups_are_simple()
    ensures { WalksInsideGroupsAreSimple }
{}

/// Where the steps of all groups that are holes are cut together by the empty hand, each orbit lies inside one of them.
pub fn orbits_of_hole_groups_are_inside_one()
    ensures { OrbitsOfHoleGroupsAreInsideOne }
{}

/// Each contour of a cut with groups is an orbit by the empty hand inside a group.
pub fn contours_are_inside_groups()
    ensures { ContoursAreInsideGroups }
{}

/// A cut with groups takes each step exactly once where all its contours are kept.
pub fn grouped_cuts_take_each_once()
    ensures { GroupedCutsTakeEachOnce }
{}
