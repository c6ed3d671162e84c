//! Changes of a walk's points that keep its windings: leaving points out, and starting elsewhere. Which collinear point
//! is left out first makes no difference.

ghost use Rattle.overlay_plane.specs.Thinning.{StepsOnOneLineWindAlike, RotatingKeepsWindings};
ghost use Rattle.overlay_plane.specs.Thinning.{DroppingKeepsWindings, ThinningKeepsWindings};
ghost use Rattle.overlay_plane.specs.Thinning.{OneThinning, OneThinningWithoutSpikes};

/// Two collinear steps, on or back, have at every point the winding of the step from the first start to the last end.
pub fn steps_on_one_line_wind_alike()
    ensures { StepsOnOneLineWindAlike }
{}

/// A closed list of points keeps its windings wherever it begins.
pub fn rotating_keeps_windings()
    ensures { RotatingKeepsWindings }
{}

/// A closed list keeps its windings where a point that is straight between its two neighbours is left out.
pub fn dropping_keeps_windings()
    ensures { DroppingKeepsWindings }
{}

/// A thinned list has at every point the winding of the list before thinning.
pub fn thinning_keeps_windings()
    ensures { ThinningKeepsWindings }
{}

/// A closed list has one thinning, but for where it begins.
pub fn one_thinning()
    ensures { OneThinning }
{}

/// A closed list has one thinning where the way goes on at each point that is collinear with its neighbours.
pub fn one_thinning_without_spikes()
    ensures { OneThinningWithoutSpikes }
{}
