//! Arrangements are the only ones that their relation allows.

ghost use Rattle.overlay_plane.specs.Determined.{OneArrangement, OneSnappedArrangement};
ghost use Rattle.overlay_plane.specs.Determined.{OneSnappedArrangementOfShuffled, OneWholeArrangement};
ghost use Rattle.overlay_plane.specs.Determined.{LightSnapsAreNotHeavy};

/// Two arrangements of one list are equal: by snap rounding, in whatever order the edges stand, and by rounds that
/// round each point of the plane alike. Where edges meet in whole points alone, they are equal by whichever solvers. A
/// list that snap rounding arranges by light pieces does not weigh too much.
pub fn one_arrangement()
    ensures rounds { OneArrangement }
    ensures snapped { OneSnappedArrangement }
    ensures shuffled { OneSnappedArrangementOfShuffled }
    ensures whole { OneWholeArrangement }
    ensures light { LightSnapsAreNotHeavy }
{}
