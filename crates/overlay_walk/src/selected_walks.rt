//! The walks of a cut of a graph's selected steps, and the contours with groups.

ghost use Rattle.std.specs.Prelude.{◌≡◌, [], All, IfOk};
ghost use Rattle.std.specs.List.Sorted.{IsPermutation};
ghost use Rattle.overlay_geom.specs.Edges.{all_ends, subj_of, clip_of};
ghost use Rattle.overlay_geom.specs.Rules.{rules_hold};
ghost use Rattle.overlay_plane.specs.Balance.{HasBalancedCounts};
ghost use Rattle.overlay_plane.specs.Binding.{AreCutFrom};
ghost use Rattle.overlay_plane.specs.Groups.{IsSimpleContour};
ghost use Rattle.overlay_plane.specs.MinimumArea.{reaches};
ghost use Rattle.overlay_plane.specs.RoledContours.{IsCutInGroups};
ghost use Rattle.overlay_plane.specs.SelectedSteps.{selected_steps};
ghost use Rattle.overlay_graph.specs.Graphs.{graph_edges, IsArrangement};
ghost use Rattle.overlay_walk.specs.GroupedContours.{plain_contours};
ghost use Rattle.overlay_walk.specs.Steps.{filled_hand, plain_steps, IsLong, RunsAlong};
ghost use Rattle.overlay_walk.specs.Walks.{plain_walks};

use crate::as_graph::AsGraph;
use crate::buffer::BooleanExtractionBuffer;
use crate::contour::Contour;
use crate::contour_cut::cut_into_contours;
use crate::groups::cut_in_groups;
use crate::hand::HandRule;
use crate::open_steps::OpenSteps;
use crate::selected_steps::push_selected;
use crate::step::Step;
use overlay_geom::number::{IntNumber, UIntNumber, WideIntNumber};
use overlay_geom::options::ContourDirection;
use overlay_geom::overlay_rule::OverlayRule;
use std::alloc::{AllocError, Allocator};

/// Returns the walks of a cut of the graph's selected steps: steps along edges with the region of the graph's rule and
/// the overlay rule on exactly one side. This side is on the left where the direction is counterclockwise, else on the
/// right. Outlines turn through their filled side, holes through their empty side. Each step has the number of its edge
/// in the graph. The counts of the edges are balanced.
///
/// It drops the graph, or the reference to it, before it puts the steps in order. The buffer lends its memory. After a
/// refusal, the buffer may be left without memory.
pub fn selected_walks<I: IntNumber, A: Allocator + Clone, G: AsGraph<I, A> + Drop>(
    graph: G,
    overlay_rule: OverlayRule,
    direction: ContourDirection,
    buffer: &mut BooleanExtractionBuffer<I, A>,
) -> Result<Vec<Vec<Step<I>, A>, A>, AllocError>
    requires { HasBalancedCounts (graph_edges (G.graph graph)) }
    ensures cut { IfOk result (λ ws. AreCutFrom (rules_hold (G.graph graph).fill_rule overlay_rule) subj_of clip_of
        (graph_edges (G.graph graph)) (filled_hand direction) (plain_walks I.whole ws.items)) }
    ensures along { IfOk result (λ ws.
        All (λ w. All (RunsAlong I.whole (all_ends (graph_edges (G.graph graph)))) w.items) ws.items) }
    ensures long { IfOk result (λ ws. All (All (IsLong I.limit)) (plain_walks I.whole ws.items)) }
{
    let alloc = graph.allocator().clone()?;
    let room = buffer.take_room(alloc.clone()?);
    let rule = HandRule::OutlineOrHole(direction);
    let mut open = open_selected(graph, overlay_rule, direction, room)?;
    let walks = cut_into_contours(alloc, &mut open, rule)?;
    buffer.put_room(open.into_room());
    Ok(walks)
}

/// Returns the contours of a cut of the graph's selected steps with groups that reach the minimum area, as
/// [`cut_in_groups`] tells. The steps are those of [`selected_walks`]. No contour visits a point twice. The counts of
/// the edges, which are an arrangement, are balanced.
///
/// The graph is dropped, and the buffer lends its memory, as in [`selected_walks`].
pub fn selected_contours<I: IntNumber, A: Allocator + Clone, G: AsGraph<I, A> + Drop>(
    graph: G,
    overlay_rule: OverlayRule,
    direction: ContourDirection,
    min_output_area: I::WideUInt,
    buffer: &mut BooleanExtractionBuffer<I, A>,
) -> Result<Vec<Contour<I, A>, A>, AllocError>
    requires { HasBalancedCounts (graph_edges (G.graph graph)) }
    ensures cut { IfOk result (λ cs. IsCutInGroups (filled_hand direction)
        (λ w. reaches I.Wide.width (I.WideUInt.natural min_output_area) w)
        (selected_steps (rules_hold (G.graph graph).fill_rule overlay_rule) subj_of clip_of (filled_hand direction)
        (graph_edges (G.graph graph))) (plain_contours I.whole cs.items)) }
    ensures simple { IfOk result (λ cs. All (λ c. IsSimpleContour c.steps) (plain_contours I.whole cs.items)) }
    ensures arranged { IsArrangement I.limit (graph_edges (G.graph graph)) }
{
    let alloc = graph.allocator().clone()?;
    let room = buffer.take_room(alloc.clone()?);
    let open = open_selected(graph, overlay_rule, direction, room)?;
    let (contours, room) = cut_in_groups(alloc, open, direction, min_output_area)?;
    buffer.put_room(room);
    Ok(contours)
}

// Returns the selected steps of the graph, none of them walked, each with its edge's number, in the memory of the list.
// It drops the graph before it puts them in order.
fn open_selected<I: IntNumber, A: Allocator + Clone, G: AsGraph<I, A> + Drop>(
    graph: G,
    overlay_rule: OverlayRule,
    direction: ContourDirection,
    mut steps: Vec<Step<I>, A>,
) -> Result<OpenSteps<I, A>, AllocError>
    requires { steps.items ≡ [] }
    ensures selected { IfOk result (λ o. IsPermutation (selected_steps
        (rules_hold (G.graph graph).fill_rule overlay_rule) subj_of clip_of (filled_hand direction)
        (graph_edges (G.graph graph))) (plain_steps I.whole o)) }
    ensures along { IfOk result (All (RunsAlong I.whole (all_ends (graph_edges (G.graph graph))))) }
{
    let edges = graph.edges();
    push_selected(&mut steps, edges, overlay_rule, direction)?;
    drop(graph);
    OpenSteps::new(steps)
}
