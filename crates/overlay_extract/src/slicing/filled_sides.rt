//! The filled sides of edges: they lead on by their hand, and the winding beside an orbit of them is one number.

ghost use Rattle.overlay_extract.specs.FilledSides.{FilledSidesOfEdges, FilledSidesLeadOn};
ghost use Rattle.overlay_extract.specs.FilledSides.{NextSidesLeadBack, OneWindingAlongSides};
ghost use Rattle.overlay_extract.specs.Loops.{LoopsPassNoSideBothWays};

/// The list of the filled sides has each step along an edge that has a filled side on its left, and no other.
pub fn filled_sides_of_edges()
    ensures { FilledSidesOfEdges }
{}

/// The steps that have a filled side by a hand lead on by this hand.
pub fn filled_sides_lead_on()
    ensures { FilledSidesLeadOn }
{}

/// From the next one of a side by the hand the way back, by the other hand, is the side back.
pub fn next_sides_lead_back()
    ensures { NextSidesLeadBack }
{}

/// Along an orbit of filled sides the winding on the hand's side is one number, for any of them whose counts are
/// balanced.
pub fn one_winding_along_sides()
    ensures { OneWindingAlongSides }
{}

/// A contour of filled sides that visits no point twice passes none whose reverse lies in the same orbit.
pub fn loops_pass_no_side_both_ways()
    ensures { LoopsPassNoSideBothWays }
{}
