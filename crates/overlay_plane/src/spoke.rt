//! The spoke lemma: changes of the winding round a node.

ghost use Rattle.overlay_plane.specs.Spokes.{WindingRoundANode, OneWindingBetweenSpokes};
ghost use Rattle.overlay_plane.specs.Spokes.{OneWindingBesideNeighbours, LoneSpokesCountNothing};

/// From one spoke to another, counterclockwise, the winding rises by the counts of those between.
pub fn winding_round_a_node()
    ensures { WindingRoundANode }
{}

/// The winding does not change between two spokes where the spokes between them have counts of zero.
pub fn one_winding_between_spokes()
    ensures { OneWindingBetweenSpokes }
{}

/// The side met after one spoke is the side met before the next spoke.
pub fn one_winding_beside_neighbours()
    ensures { OneWindingBesideNeighbours }
{}

/// A spoke without others at its node has counts of zero.
pub fn lone_spokes_count_nothing()
    ensures { LoneSpokesCountNothing }
{}
