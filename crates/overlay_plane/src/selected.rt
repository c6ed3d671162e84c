//! Selected steps round a node.

ghost use Rattle.overlay_plane.specs.SelectedSteps.{SelectedStepsAlternate, SelectedStepsOfEdges};

/// Steps alternate round every node, if they run along the edges that have a rule on exactly one side, all with that
/// side on the left or all on the right.
pub fn selected_steps_alternate()
    ensures { SelectedStepsAlternate }
{}

/// The list of the selected steps of the edges has these steps and no others.
pub fn selected_steps_of_edges()
    ensures { SelectedStepsOfEdges }
{}
