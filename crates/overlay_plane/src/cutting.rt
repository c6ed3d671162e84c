//! Edges cut into the pieces of a chain through whole points.

ghost use Rattle.overlay_plane.specs.Cutting.{CuttingKeepsBalance, CuttingOnALineKeepsWindings};
ghost use Rattle.overlay_plane.specs.Cutting.{CuttingOnLinesKeepsWindings};

/// A list whose edges are cut through any points keeps balanced counts.
pub fn cutting_keeps_balance()
    ensures { CuttingKeepsBalance }
{}

/// The steps of a chain through points on an edge's line have the windings of the step along the edge.
pub fn cutting_on_a_line_keeps_windings()
    ensures { CuttingOnALineKeepsWindings }
{}

/// A list whose edges are cut through points on their lines keeps its windings.
pub fn cutting_on_lines_keeps_windings()
    ensures { CuttingOnLinesKeepsWindings }
{}
