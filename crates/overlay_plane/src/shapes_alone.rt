//! Each shape by itself: its contours wind once, or zero times, round each point of the plane.

ghost use Rattle.overlay_plane.specs.ShapesAlone.{OneWindingPastOrbits, EachShapeWindsOnceOrNot};
ghost use Rattle.overlay_plane.specs.ShapesAlone.{NoTwoWindRoundOnePoint};

/// An orbit has equal windings beside steps that it leaves and that meet.
pub fn one_winding_past_orbits()
    ensures { OneWindingPastOrbits }
{}

/// Where all contours are bound, each shape winds once or zero times round each point. Each contour may be thinned or
/// not.
pub fn each_shape_winds_once_or_not()
    ensures { EachShapeWindsOnceOrNot }
{}

/// Where such shapes wind once or zero times together, at most one of them winds there.
pub fn no_two_wind_round_one_point()
    ensures { NoTwoWindRoundOnePoint }
{}
