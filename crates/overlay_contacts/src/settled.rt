//! Relations of shapes as given, told by the filled sides of edges that meet in ends alone.

ghost use Rattle.std.specs.Prelude.{◌≡◌, ◌↔◌, ◌⊎◌, IsTrue, IfOk};
ghost use Rattle.overlay_geom.specs.Rules.{is_filled};
ghost use Rattle.overlay_geom.specs.Settled.{IsSettled};
ghost use Rattle.overlay_plane.specs.Balance.{HasBalancedCounts};
ghost use Rattle.overlay_plane.specs.Carried.{edges_in};
ghost use Rattle.overlay_plane.specs.EdgePredicates.{SomeEdge, HasSharedEnd, has_both};
ghost use Rattle.overlay_plane.specs.GivenPredicates.{KeepsPointsOff};
ghost use Rattle.overlay_order.specs.Content.{IsAscending};
ghost use Rattle.overlay_graph.specs.Graphs.{graph_edges};
ghost use Rattle.overlay_contacts.specs.ExactRelations.{AreExactRelations};
ghost use Rattle.overlay_contacts.specs.SettledRelations.{TellOfEdges, relations_of};

use crate::edge_sides::some_edge_passes;
use overlay_arrange::content::Content;
use overlay_geom::fill_rule::FillRule;
use overlay_geom::number::IntNumber;
use overlay_given::sides::SideTest;
use overlay_graph::graph::Graph;
use overlay_order::count::EdgeCount;
use overlay_relate::relations::Relations;
use overlay_relate::shared_end::has_shared_end;
use std::alloc::{AllocError, Allocator};

/// Returns the relations of subject and clip, told by the filled sides of edges that meet in ends alone. Each answer is
/// that of any content whose points off the edges, and their windings, they keep. The error is that memory is refused.
pub fn settled_relations<I: IntNumber, C: EdgeCount, A: Allocator + Clone>(
    content: &Content<I, C, A>,
    rule: FillRule,
) -> Result<Relations, AllocError>
    requires ascending { IsAscending (edges_in content.now) }
    requires settled { IsSettled (edges_in content.now) }
    requires balanced { HasBalancedCounts (edges_in content.now) }
    ensures ok { IfOk result (λ r. (given : _) → KeepsPointsOff given (edges_in content.now)
        → AreExactRelations (is_filled rule) given r) }
{
    let graph = content.graph_of_balanced(rule)?;
    graph_relations(&graph)
}

// Returns the relations that the graph tells.
fn graph_relations<I: IntNumber, C: EdgeCount, A: Allocator + Clone>(
    graph: &Graph<I, C, A>,
) -> Result<Relations, AllocError>
    requires balanced { HasBalancedCounts (graph_edges graph.now) }
    ensures ok { IfOk result (λ r. (content : _) → KeepsPointsOff content (graph_edges graph.now)
        → AreExactRelations (is_filled graph.now.fill_rule) content r) }
{
    let found = findings_in(graph)?;
    Ok(found.relations())
}

// What is found of the filled sides of edges, and of the ends of borders.
#[derive(Clone, Copy)]
struct EdgeFindings {
    // Some edge has sides of both shapes, or their borders share an end.
    meet: bool,
    // Some edge has sides of both shapes.
    has_both: bool,
    // Both fill the same side of some edge.
    has_common_side: bool,
    // The subject fills a side of some edge.
    has_subject: bool,
    // It fills one that the clip does not fill.
    subject_pokes_out: bool,
    // The clip fills a side of some edge.
    has_clip: bool,
    // It fills one that the subject does not fill.
    clip_pokes_out: bool,
}

impl EdgeFindings {
    // Returns the relations that they tell.
    fn relations(self) -> Relations
        ensures { result ≡ relations_of self }
    {
        Relations {
            intersects: self.meet,
            interiors_intersect: self.has_common_side,
            touches: self.meet && !self.has_common_side,
            point_intersects: self.meet && !self.has_both,
            within: self.has_subject && !self.subject_pokes_out,
            disjoint: !self.meet,
            covers: self.has_clip && !self.clip_pokes_out,
        }
    }
}

// Returns what is found of the edges.
fn findings_in<I: IntNumber, C: EdgeCount, A: Allocator + Clone>(
    graph: &Graph<I, C, A>,
) -> Result<EdgeFindings, AllocError>
    requires balanced { HasBalancedCounts (graph_edges graph.now) }
    ensures ok { IfOk result (TellOfEdges (is_filled graph.now.fill_rule) (graph_edges graph.now)) }
{
    let meet = do_meet(graph)?;
    let edges = graph.edges();
    Ok(EdgeFindings {
        meet,
        has_both: some_edge_passes(edges, SideTest::BothShapes),
        has_common_side: some_edge_passes(edges, SideTest::CommonSide),
        has_subject: some_edge_passes(edges, SideTest::SubjectSide),
        subject_pokes_out: some_edge_passes(edges, SideTest::SubjectOutside),
        has_clip: some_edge_passes(edges, SideTest::ClipSide),
        clip_pokes_out: some_edge_passes(edges, SideTest::ClipOutside),
    })
}

// Returns whether some edge has sides of both shapes, or their borders share an end.
fn do_meet<I: IntNumber, C: EdgeCount, A: Allocator + Clone>(
    graph: &Graph<I, C, A>,
) -> Result<bool, AllocError>
    ensures ok { let es = graph_edges graph.now in
        let filled = is_filled graph.now.fill_rule in
        IfOk result (λ b. IsTrue b ↔ (SomeEdge (has_both filled es) es ⊎ HasSharedEnd filled es)) }
{
    let is_met = some_edge_passes(graph.edges(), SideTest::BothShapes);
    if is_met {
        return Ok(true);
    }
    has_shared_end(graph)
}
