//! Cuts of steps into walks, and of alternating steps into contours.

ghost use Rattle.overlay_plane.specs.Contours.{CutsLeaveCuttable, CutsExist, CutsTakeEachOnce, CutsAreOrbits};
ghost use Rattle.overlay_plane.specs.Contours.{OrbitsAreContours, CutsAreContours};

/// Steps that can be cut lead on by the hand that any of them tells. The steps that an orbit by that hand leaves can be
/// cut again.
pub fn cuts_leave_cuttable()
    ensures { CutsLeaveCuttable }
{}

/// Steps that can be cut have a cut.
pub fn cuts_exist()
    ensures { CutsExist }
{}

/// The cut takes each step exactly once.
pub fn cuts_take_each_once()
    ensures { CutsTakeEachOnce }
{}

/// Where the steps alternate, the rest after the first walks alternates, and the next walk is the orbit of its start.
pub fn cuts_are_orbits()
    ensures { CutsAreOrbits }
{}

/// An orbit of steps that alternate is a closed contour.
pub fn orbits_are_contours()
    ensures { OrbitsAreContours }
{}

/// The walks of a cut of steps that alternate are closed contours.
pub fn cuts_are_contours()
    ensures { CutsAreContours }
{}
