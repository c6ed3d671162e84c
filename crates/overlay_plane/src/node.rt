//! Windings round a node, from the edges that start and end there.

ghost use Rattle.overlay_plane.specs.Nodes.{WindingFromAStart, WindingFromAnEnd, NodeIsBalanced};
ghost use Rattle.overlay_plane.specs.Nodes.{NodesMakeBalance, UnderBesideANode, WindingBesideUprights};

/// The winding below an edge is the winding at its start plus the counts that start there to its right.
pub fn winding_from_a_start()
    ensures { WindingFromAStart }
{}

/// The winding below an edge is the winding at its end plus the counts that end there to its right.
pub fn winding_from_an_end()
    ensures { WindingFromAnEnd }
{}

/// The counts that start in a node and those that end there have equal sums.
pub fn node_is_balanced()
    ensures { NodeIsBalanced }
{}

/// A list is balanced where, at every point, the starting and the ending counts have equal sums.
pub fn nodes_make_balance()
    ensures { NodesMakeBalance }
{}

/// Edges that start, or end, in one node are in the order of their turns beside it.
pub fn under_beside_a_node()
    ensures { UnderBesideANode }
{}

/// The winding below a vertical edge is that at its upper end. It is also that at its lower end plus the counts of all
/// edges that start there and are not vertical.
pub fn winding_beside_uprights()
    ensures { WindingBesideUprights }
{}
