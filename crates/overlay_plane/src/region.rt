//! The region where a rule holds of two windings.

ghost use Rattle.overlay_plane.specs.Regions.{RegionOverEdgesTaken, RegionFromSelectedSigns, RegionBelowAnEdge};

/// Takes edges over an x-coordinate with all edges under them, and the signs of those across which a rule's truth
/// changes. These signs add up to the rule's truth at the sums of the counts.
pub fn region_over_edges_taken()
    ensures { RegionOverEdgesTaken }
{}

/// The signs of the edges strictly below a point add up to the rule's truth at the point.
pub fn region_from_selected_signs()
    ensures { RegionFromSelectedSigns }
{}

/// The signs of the edges under an edge add up to the rule's truth just below that edge.
pub fn region_below_an_edge()
    ensures { RegionBelowAnEdge }
{}
