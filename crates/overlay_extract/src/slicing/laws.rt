//! Laws of orbits of filled sides, their tours, the loops into which these are cut, and the slices of loops.

ghost use Rattle.overlay_extract.specs.Bound.{LoopsCanBeBound};
ghost use Rattle.overlay_extract.specs.Sliced.{NoTwoSlicesWindRoundOnePoint};
ghost use Rattle.overlay_extract.specs.Tours.{OrbitsMakeTours, ToursMakeLoops};

/// The tours into which the orbits of sides are split are tours of the sides.
pub fn orbits_make_tours()
    ensures { OrbitsMakeTours }
{}

/// The loops into which tours of filled sides are cut are loops of the sides.
pub fn tours_make_loops()
    ensures { ToursMakeLoops }
{}

/// Loops of filled sides, as far as they pass a test, can be bound to shapes.
pub fn loops_can_be_bound()
    ensures { LoopsCanBeBound }
{}

/// With minimum area zero no two different slices both wind round a point off the edges.
pub fn no_two_slices_wind_round_one_point()
    ensures { NoTwoSlicesWindRoundOnePoint }
{}
