//! Answers of graphs, handed out.

ghost use Rattle.std.specs.Prelude.{◌≡◌, MatchResult};
ghost use Rattle.polyover_calls.specs.Asked.{options_of};
ghost use Rattle.polyover_calls.specs.Held.{arrays_of};
ghost use Rattle.polyover_calls.specs.Linked.{AreFlatLinked, flat_linked};
ghost use Rattle.polyover_calls.specs.Listed.{flat_edges};
ghost use Rattle.polyover_calls.specs.Written.{IsFlat, flat_shapes};
ghost use Rattle.polyover_calls.specs.declared.status.Status.TheVariants.{BadOption, Memory};
ghost use Rattle.polyover_views.specs.Asked.{AreEdgesOfGraph, AreGraphOptions, IsAskingRefused, IsHierarchyOfGraph};
ghost use Rattle.polyover_views.specs.Asked.{GraphEdgesAreHeld, GraphHierarchyIsHeld, GraphOverlayIsHeld};
ghost use Rattle.polyover_views.specs.Asked.{IsOverlayOfGraph};
ghost use Rattle.polyover_views.specs.Held.{CanBeAsked, graph_of};

use crate::made::HeldGraph;
use crate::taken::taken_graph;
use i_overlay::overlay::IntOverlayOptions;
use overlay_extract::extract::extract_flat_shapes;
use overlay_extract::hierarchy::extract_shape_hierarchy;
use overlay_geom::integer::OverlayInt;
use overlay_geom::number::UIntNumber;
use overlay_order::data::CountWithData;
use overlay_order::edge::CountedEdge;
use overlay_relate::form::FormOf;
use overlay_walk::buffer::BooleanExtractionBuffer;
use polyover_calls::answer::{Answer, flat_answer};
use polyover_calls::edges::{ListedEdges, listed};
use polyover_calls::held::{HeldOutcome, hold_edges, hold_linked, hold_nothing, hold_shapes};
use polyover_calls::linked_answer::{LinkedAnswer, flattened_hierarchy};
use polyover_calls::numbers::{OptionNumbers, options_of, rule_of};
use polyover_calls::status::Status;
use std::alloc::Global;

/// The shapes of the overlay of the graph that the numbers ask for.
#[tactic(auto, using(polyover_calls::proofs::Endings::put_ends, polyover_calls::proofs::Endings::refused_ends))]
pub fn graph_overlay_held<'a, I: OverlayInt + 'a, E: FormOf<CountedEdge<I, CountWithData<()>>>>(
    alloc: Global,
    graph: &HeldGraph<E>,
    rule: u32,
    options: OptionNumbers<I::WideUInt>,
) -> HeldOutcome<'a, I>
    requires { CanBeAsked I.limit (graph_of I.whole E.meant graph.now) }
    ensures { GraphOverlayIsHeld I.whole I.Wide.width I.WideUInt.natural (graph_of I.whole E.meant graph.now) rule
        options (arrays_of result.held) result.status }
{
    match overlay_of_graph(alloc, graph, rule, options) {
        Ok(answer) => hold_shapes(answer),
        Err(status) => hold_nothing(status),
    }
}

// The shapes as arrays, or why there are none.
#[tactic(auto, using(crate::proofs::Answering::memory_refused))]
fn overlay_of_graph<I: OverlayInt, E: FormOf<CountedEdge<I, CountWithData<()>>>>(
    alloc: Global,
    graph: &HeldGraph<E>,
    rule: u32,
    options: OptionNumbers<I::WideUInt>,
) -> Result<Answer<I>, Status>
    requires { CanBeAsked I.limit (graph_of I.whole E.meant graph.now) }
    ensures { MatchResult result
        (λ a. IsFlat (IsOverlayOfGraph I.Wide.width I.WideUInt.natural (graph_of I.whole E.meant graph.now) rule
        options) I.whole (flat_shapes a.coordinates.items a.contour_ends.items a.shape_ends.items))
        (IsAskingRefused (graph_of I.whole E.meant graph.now) rule options) }
{
    let rule = rule_of(rule)?;
    let settings = settings_of(graph.solver, graph.keep_given, options)?;
    let taken = taken_graph(alloc, graph)?;
    let buffer = BooleanExtractionBuffer::default(alloc);
    let flat = extract_flat_shapes(taken, rule, settings, buffer)?;
    let answer = flat_answer(alloc, flat)?;
    Ok(answer)
}

/// The shapes of the overlay of the graph that the numbers ask for, with the links between them.
#[tactic(auto, using(polyover_calls::proofs::Endings::put_ends, polyover_calls::proofs::Endings::refused_ends))]
pub fn graph_hierarchy_held<'a, I: OverlayInt + 'a, E: FormOf<CountedEdge<I, CountWithData<()>>>>(
    alloc: Global,
    graph: &HeldGraph<E>,
    rule: u32,
    options: OptionNumbers<I::WideUInt>,
) -> HeldOutcome<'a, I>
    requires { CanBeAsked I.limit (graph_of I.whole E.meant graph.now) }
    ensures { GraphHierarchyIsHeld I.whole I.Wide.width I.WideUInt.natural (graph_of I.whole E.meant graph.now) rule
        options (arrays_of result.held) result.status }
{
    match hierarchy_of_graph(alloc, graph, rule, options) {
        Ok(answer) => hold_linked(answer),
        Err(status) => hold_nothing(status),
    }
}

// The shapes and links as arrays, or why there are none.
#[tactic(auto, using(crate::proofs::Answering::memory_refused, crate::proofs::Answering::extraction_refused))]
fn hierarchy_of_graph<I: OverlayInt, E: FormOf<CountedEdge<I, CountWithData<()>>>>(
    alloc: Global,
    graph: &HeldGraph<E>,
    rule: u32,
    options: OptionNumbers<I::WideUInt>,
) -> Result<LinkedAnswer<I>, Status>
    requires { CanBeAsked I.limit (graph_of I.whole E.meant graph.now) }
    ensures { MatchResult result
        (λ a. AreFlatLinked (IsHierarchyOfGraph I.Wide.width I.WideUInt.natural (graph_of I.whole E.meant graph.now)
        rule options) I.whole (flat_linked a.shapes.coordinates.items a.shapes.contour_ends.items
        a.shapes.shape_ends.items a.links.items))
        (IsAskingRefused (graph_of I.whole E.meant graph.now) rule options) }
{
    let rule = rule_of(rule)?;
    let settings = settings_of(graph.solver, graph.keep_given, options)?;
    let taken = taken_graph(alloc, graph)?;
    let mut buffer = BooleanExtractionBuffer::default(alloc);
    let hierarchy = extract_shape_hierarchy(&taken, rule, settings, &mut buffer)?;
    let answer = flattened_hierarchy(alloc, &hierarchy)?;
    Ok(answer)
}

/// The edges of the graph, with the sides that are filled.
#[tactic(auto, using(polyover_calls::proofs::Endings::put_ends, polyover_calls::proofs::Endings::refused_ends))]
pub fn graph_edges_held<'a, I: OverlayInt + 'a, E: FormOf<CountedEdge<I, CountWithData<()>>>>(
    alloc: Global,
    graph: &HeldGraph<E>,
) -> HeldOutcome<'a, I>
    requires { CanBeAsked I.limit (graph_of I.whole E.meant graph.now) }
    ensures { GraphEdgesAreHeld I.whole (graph_of I.whole E.meant graph.now) (arrays_of result.held) result.status }
{
    match edges_of_graph(alloc, graph) {
        Ok(answer) => hold_edges(answer),
        Err(status) => hold_nothing(status),
    }
}

// The edges as arrays, or why there are none.
fn edges_of_graph<I: OverlayInt, E: FormOf<CountedEdge<I, CountWithData<()>>>>(
    alloc: Global,
    graph: &HeldGraph<E>,
) -> Result<ListedEdges<I>, Status>
    requires { CanBeAsked I.limit (graph_of I.whole E.meant graph.now) }
    ensures { MatchResult result
        (λ l. AreEdgesOfGraph I.whole (graph_of I.whole E.meant graph.now)
        (flat_edges l.coordinates.items l.fills.items)) (λ s. s ≡ Memory) }
{
    let taken = taken_graph(alloc, graph)?;
    let edges = taken.separate_vectors()?;
    let answer = listed(alloc, &edges)?;
    Ok(answer)
}

// The options with the numbers; `BadOption` where a choice stands for nothing, or is not that of the graph.
fn settings_of<U: UIntNumber>(
    solver: u32,
    keep_given: u32,
    options: OptionNumbers<U>,
) -> Result<IntOverlayOptions<U>, Status>
    ensures { MatchResult result (λ o. AreGraphOptions solver keep_given options × (o ≡ options_of options))
        (λ s. (s ≡ BadOption) × ¬ (AreGraphOptions solver keep_given options)) }
{
    if options.solver != solver || (options.keep >= 2) != (keep_given == 1) {
        return Err(Status::BadOption);
    }
    options_of(options)
}
