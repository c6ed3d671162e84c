//! What answers predicates, found from the filled sides of the edges of an arrangement.

ghost use Rattle.std.specs.Prelude.{◌≡◌, ◌↔◌, ◌⊎◌, false, IsTrue, IfOk, IfSome};
ghost use Rattle.overlay_graph.specs.FillTests.{some_fill_passes};
ghost use Rattle.overlay_graph.specs.Graphs.{graph_edges};
ghost use Rattle.overlay_geom.specs.Rules.{is_filled};
ghost use Rattle.overlay_plane.specs.Balance.{HasBalancedCounts};
ghost use Rattle.overlay_plane.specs.EdgePredicates.{SomeEdge, HasSharedEnd, has_both};
ghost use Rattle.overlay_relate.specs.EdgeTests.{bits_pass};
ghost use Rattle.overlay_relate.specs.Findings.{IsAnswering, Tells, telling_test};
ghost use Rattle.overlay_relate.specs.Found.{IsFoundUnder};

use crate::edge_test::{EdgeTest, some_passes};
use crate::finding::{Finding, Told};
use crate::found::Found;
use crate::predicate::Predicate;
use crate::shared_end::has_shared_end;
use overlay_geom::fill_rule::FillRule;
use overlay_geom::number::IntNumber;
use overlay_graph::graph::Graph;
use overlay_order::count::EdgeCount;
use std::alloc::{AllocError, Allocator};

/// Returns the answer of the predicate where the sides alone tell it, else the answers of all predicates. No edge
/// passes the test that tells the predicate.
pub(crate) fn finding_in<I: IntNumber, C: EdgeCount, A: Allocator + Clone>(
    graph: &Graph<I, C, A>,
    fill_rule: FillRule,
    predicate: Predicate,
) -> Result<Finding, AllocError>
    requires balanced { HasBalancedCounts (graph_edges graph.now) }
    requires rule { graph.now.fill_rule ≡ fill_rule }
    requires untold { some_fill_passes (bits_pass (telling_test predicate)) fill_rule (graph_edges graph.now) ≡ false }
    ensures { IfOk result (IsAnswering fill_rule (graph_edges graph.now) predicate) }
{
    match told_without_ends(graph, predicate) {
        Some(answer) => Ok(Finding::One(Told {
            predicate,
            fill_rule,
            answer,
        })),
        None => Ok(Finding::All(found_in(graph, fill_rule)?)),
    }
}

// Returns whether the predicate holds, if the sides of the edges tell it. No edge passes its telling test.
fn told_without_ends<I: IntNumber, C: EdgeCount, A: Allocator + Clone>(
    graph: &Graph<I, C, A>,
    predicate: Predicate,
) -> Option<bool>
    requires balanced { HasBalancedCounts (graph_edges graph.now) }
    requires untold { some_fill_passes (bits_pass (telling_test predicate)) graph.now.fill_rule
        (graph_edges graph.now) ≡ false }
    ensures { IfSome result (Tells graph.now.fill_rule (graph_edges graph.now) predicate) }
{
    let edges = graph.edges();
    match predicate {
        Predicate::InteriorsIntersect => Some(false),
        Predicate::Within => Some(some_passes(edges, EdgeTest::SubjectSide)),
        Predicate::Cover => Some(some_passes(edges, EdgeTest::ClipSide)),
        _ => None,
    }
}

/// What is found of the edges with the sides that the subject and the clip fill, under the graph's rule.
pub(crate) fn found_in<I: IntNumber, C: EdgeCount, A: Allocator + Clone>(
    graph: &Graph<I, C, A>,
    fill_rule: FillRule,
) -> Result<Found, AllocError>
    requires balanced { HasBalancedCounts (graph_edges graph.now) }
    requires rule { graph.now.fill_rule ≡ fill_rule }
    ensures ok { IfOk result (IsFoundUnder fill_rule (graph_edges graph.now)) }
    ensures rule { IfOk result (λ f. f.fill_rule ≡ fill_rule) }
{
    let edges = graph.edges();
    Ok(Found {
        fill_rule,
        meet: meet(graph)?,
        has_both: some_passes(edges, EdgeTest::BothShapes),
        has_common_side: some_passes(edges, EdgeTest::CommonSide),
        has_subject: some_passes(edges, EdgeTest::SubjectSide),
        subject_pokes_out: some_passes(edges, EdgeTest::SubjectOutside),
        has_clip: some_passes(edges, EdgeTest::ClipSide),
        clip_pokes_out: some_passes(edges, EdgeTest::ClipOutside),
    })
}

// Whether some edge has sides of both shapes, or their borders share an end.
fn meet<I: IntNumber, C: EdgeCount, A: Allocator + Clone>(
    graph: &Graph<I, C, A>,
) -> Result<bool, AllocError>
    ensures ok { let es = graph_edges graph.now in
        let filled = is_filled graph.now.fill_rule in
        IfOk result (λ b. IsTrue b ↔ (SomeEdge (has_both filled es) es ⊎ HasSharedEnd filled es)) }
{
    let is_met = some_passes(graph.edges(), EdgeTest::BothShapes);
    if is_met {
        return Ok(true);
    }
    has_shared_end(graph)
}
