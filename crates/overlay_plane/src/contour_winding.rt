//! Windings of selected steps, and of the contours that they are cut into, round the points of the plane.

ghost use Rattle.overlay_plane.specs.ContourWindings.{SelectedStepsWind, SelectedStepsOnce};
ghost use Rattle.overlay_plane.specs.ContourWindings.{CutsKeepWindings, ThinnedContoursWindAlike, ContoursWind};
ghost use Rattle.overlay_plane.specs.ContourWindings.{ResultsWind};

/// The selected steps wind once round each point where the rule holds, and zero times round each other point.
pub fn selected_steps_wind()
    ensures { SelectedStepsWind }
{}

/// No step is selected twice.
pub fn selected_steps_once()
    ensures { SelectedStepsOnce }
{}

/// A cut keeps the winding round each point.
pub fn cuts_keep_windings()
    ensures { CutsKeepWindings }
{}

/// A contour as given and the thinned contour have equal windings.
pub fn thinned_contours_wind_alike()
    ensures { ThinnedContoursWindAlike }
{}

/// The contours that the selected steps are cut into have the windings of these steps.
pub fn contours_wind()
    ensures { ContoursWind }
{}

/// The contours' points, as given or thinned, wind once round each point where the rule holds, and zero times round
/// each other point.
pub fn results_wind()
    ensures { ResultsWind }
{}
