//! Laws of the answers of overlays.

ghost use Rattle.overlay_extract.specs.Laws.{DirectionTurnsWindings, SameRegionSameWindings};
ghost use Rattle.overlay_extract.specs.Laws.{SelectedStepsWindRoundRegion};
ghost use Rattle.overlay_extract.specs.Laws.{NoTwoOfHierarchyWindRoundOnePoint, NoTwoShapesWindRoundOnePoint};

/// On an arrangement with balanced counts, the selected steps wind once, in the output direction, round each point
/// where the rules hold of the windings. They wind zero times round each other point.
pub fn selected_steps_wind_round_region()
    ensures { SelectedStepsWindRoundRegion }
{}

/// With minimum area zero, the contours of an arrangement in the two output directions have opposite windings at each
/// point off its edges.
pub fn direction_turns_windings()
    ensures { DirectionTurnsWindings }
{}

/// With minimum area zero, answers for one arrangement, with equal rules and output direction, have equal windings at
/// each point off its edges. The other options do not matter.
pub fn same_region_same_windings()
    ensures { SameRegionSameWindings }
{}

/// With minimum area zero, no two different shapes of a result wind round one point off the edges. Nor do two of a
/// hierarchy.
pub fn no_two_shapes_wind_round_one_point()
    ensures results { NoTwoShapesWindRoundOnePoint }
    ensures hierarchies { NoTwoOfHierarchyWindRoundOnePoint }
{}
