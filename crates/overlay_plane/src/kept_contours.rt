//! The contours that are kept of a cut of selected steps, with groups or without, and the shapes to which they are
//! bound.

ghost use Rattle.overlay_plane.specs.KeptContours.{KeptContoursCanBeBound, KeptContoursAreSimple};
ghost use Rattle.overlay_plane.specs.KeptContours.{KeptContoursHaveNoSpikes};
ghost use Rattle.overlay_plane.specs.KeptContours.{KeptShapesCanBeBound, AllContoursTakeEachOnce, AllHolesHaveShapes};
ghost use Rattle.overlay_plane.specs.KeptContours.{AllParentsAreFound, AllShapesHaveEachStep, AllShapesWind};

/// The kept contours of a cut of selected steps can be bound to shapes.
pub fn kept_contours_can_be_bound()
    ensures { KeptContoursCanBeBound }
{}

/// With groups, no kept contour visits a point twice.
pub fn kept_contours_are_simple()
    ensures { KeptContoursAreSimple }
{}

/// At each point of a kept contour that is collinear with its neighbours the way goes on.
pub fn kept_contours_have_no_spikes()
    ensures { KeptContoursHaveNoSpikes }
{}

/// The walks of the shapes to which kept contours are bound can be bound too.
pub fn kept_shapes_can_be_bound()
    ensures { KeptShapesCanBeBound }
{}

/// Where all contours are kept, they take each selected step exactly once.
pub fn all_contours_take_each_once()
    ensures { AllContoursTakeEachOnce }
{}

/// Where all are kept, the holes' parents are the shapes found for them, also where there is one shape alone.
pub fn all_parents_are_found()
    ensures { AllParentsAreFound }
{}

/// Where all are kept, a shape is found for each hole.
pub fn all_holes_have_shapes()
    ensures { AllHolesHaveShapes }
{}

/// Where all are kept, the shapes to which they are bound have each selected step exactly once.
pub fn all_shapes_have_each_step()
    ensures { AllShapesHaveEachStep }
{}

/// Where all are kept, the shapes wind once round each point where the rule holds, and zero times round each other
/// point. Each contour may be thinned or not.
pub fn all_shapes_wind()
    ensures { AllShapesWind }
{}
