//! The kept contours of a cut of a graph's selected steps, with groups or without.

ghost use Rattle.std.specs.Prelude.{◌≡◌, false, map, All, IfOk};
ghost use Rattle.overlay_geom.specs.Edges.{all_ends};
ghost use Rattle.overlay_plane.specs.Balance.{HasBalancedCounts};
ghost use Rattle.overlay_plane.specs.BoundContours.{walks_in};
ghost use Rattle.overlay_plane.specs.RoledContours.{contours_from};
ghost use Rattle.overlay_graph.specs.Graphs.{graph_edges};
ghost use Rattle.overlay_walk.specs.Asked.{asked};
ghost use Rattle.overlay_walk.specs.GroupedContours.{plain_contours};
ghost use Rattle.overlay_walk.specs.KeptResults.{AreKeptResults};
ghost use Rattle.overlay_walk.specs.Steps.{filled_hand, IsLong, RunsAlong};
ghost use Rattle.overlay_walk.specs.Walks.{plain_walks};

use crate::area::large_walks;
use crate::as_graph::AsGraph;
use crate::buffer::BooleanExtractionBuffer;
use crate::contour::{Contour, Role};
use crate::filled_side::is_hole;
use crate::selected_walks::{selected_contours, selected_walks};
use crate::step::Step;
use overlay_geom::number::{IntNumber, UIntNumber, WideIntNumber};
use overlay_geom::options::{ContourDirection, IntOverlayOptions};
use overlay_geom::overlay_rule::OverlayRule;
use std::alloc::{AllocError, Allocator};

/// Returns the contours of a cut of the graph's selected steps: steps along edges with the region of the graph's rule
/// and the overlay rule on exactly one side. This side is on the left where the output direction is counterclockwise,
/// else on the right.
///
/// With `ogc` they are cut in groups, as [`cut_in_groups`](crate::groups::cut_in_groups) tells. Without it each walk is
/// an outline, which turns through its filled side, or a hole whose shape is to be found, which turns through its empty
/// side. Contours with three points or more that reach the minimum area are returned; a hole of an outline's group only
/// with its outline.
///
/// The counts of the edges are balanced. Without `ogc` each step has the number of its edge in the graph. The graph, or
/// the reference to it, is dropped once the steps are selected. The buffer lends its memory. After a refusal, the
/// buffer may be left without memory.
pub fn kept_contours<I: IntNumber, A: Allocator + Clone, G: AsGraph<I, A> + Drop>(
    graph: G,
    overlay_rule: OverlayRule,
    options: IntOverlayOptions<I::WideUInt>,
    buffer: &mut BooleanExtractionBuffer<I, A>,
) -> Result<Vec<Contour<I, A>, A>, AllocError>
    requires { HasBalancedCounts (graph_edges (G.graph graph)) }
    ensures kept { IfOk result (λ cs. AreKeptResults
        (asked I.Wide.width I.WideUInt.natural (G.graph graph).fill_rule overlay_rule options)
        (graph_edges (G.graph graph)) (plain_contours I.whole cs.items)) }
    ensures long { IfOk result (λ cs. All (All (IsLong I.limit)) (walks_in (plain_contours I.whole cs.items))) }
    ensures along { IfOk result (λ cs. options.ogc ≡ false →
        All (λ c. All (RunsAlong I.whole (all_ends (graph_edges (G.graph graph)))) c.steps.items) cs.items) }
{
    let direction = options.output_direction;
    let least = options.min_output_area;
    if options.ogc {
        return selected_contours(graph, overlay_rule, direction, least, buffer);
    }
    let alloc = graph.allocator().clone()?;
    let walks = selected_walks(graph, overlay_rule, direction, buffer)?;
    let large = large_walks(alloc.clone()?, walks, least)?;
    roled(alloc, large, direction)
}

// Returns the walks as contours: the outlines, numbered from 0, and the holes, whose shape is to be found.
fn roled<I: IntNumber, A: Allocator>(
    alloc: A,
    walks: Vec<Vec<Step<I>, A>, A>,
    direction: ContourDirection,
) -> Result<Vec<Contour<I, A>, A>, AllocError>
    ensures ok { IfOk result (λ cs. plain_contours I.whole cs.items
        ≡ contours_from (filled_hand direction) 0 (plain_walks I.whole walks.items)) }
    ensures steps { IfOk result (λ cs. map (λ c. c.steps) cs.items ≡ walks.items) }
{
    let mut contours = Vec::with_capacity(alloc, walks.len())?;
    let mut number = 0;
    for steps in walks {
        if is_hole(&steps, direction) {
            let role = Role::FreeHole;
            contours.push(Contour { role, steps })?;
        } else {
            let role = Role::Outline(number);
            contours.push(Contour { role, steps })?;
            number += 1;
        }
    }
    Ok(contours)
}
