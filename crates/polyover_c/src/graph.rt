//! Graphs: arrangements that are made once, and asked as often as wanted.

ghost use Rattle.std.specs.Int.{w64, w128};
ghost use Rattle.polyover_calls.specs.Given.{contours_of};
ghost use Rattle.polyover_calls.specs.Held.{IsGiven, arrays_at_32, arrays_at_64};
ghost use Rattle.polyover_calls.specs.Options.{options_32, options_64};
ghost use Rattle.polyover_views.specs.Asked.{GraphEdgesAreHeld, GraphHierarchyIsHeld, GraphOverlayIsHeld};
ghost use Rattle.polyover_views.specs.Held.{CanBeAsked, graph_at_32, graph_at_64};
ghost use Rattle.polyover_views.specs.Made.{IsMadeSo};

use polyover_calls::arrays::{Contours32, Contours64};
use polyover_calls::held::{Held32, Held64};
use polyover_calls::options::{Options32, Options64};
use polyover_views::asked::{graph_edges_held, graph_hierarchy_held, graph_overlay_held};
use polyover_views::graph::{Graph32, Graph64};
use polyover_views::made::{GraphNumbers, graph_held};
use std::alloc::Global;

/// Hands out the graph of the subject and the clip under the fill rule: the code of a status. After any but `Done` it
/// has no edges.
#[unsafe(no_mangle)]
pub extern "C" fn polyover_arrange_with<'a>(
    alloc: Global,
    fill: u32,
    solver: u32,
    keep_given: u32,
    subject: &Contours64,
    clip: &Contours64,
    graph: &mut Graph64<'a>,
) -> u32
    ensures { IsMadeSo (λ z. z) 4611686018427387903 fill solver keep_given
        (contours_of subject.now.coordinates.now subject.now.ends.now)
        (contours_of clip.now.coordinates.now clip.now.ends.now)
        (graph_at_64 graph.new) result }
{
    let numbers = GraphNumbers {
        fill,
        solver,
        keep_given,
    };
    graph.give(&graph_held(alloc, numbers, &subject.given(), &clip.given()))
}

/// `polyover_arrange_with` at 32 bits.
#[unsafe(no_mangle)]
pub extern "C" fn polyover_arrange_with_32<'a>(
    alloc: Global,
    fill: u32,
    solver: u32,
    keep_given: u32,
    subject: &Contours32,
    clip: &Contours32,
    graph: &mut Graph32<'a>,
) -> u32
    ensures { IsMadeSo (λ z. z) 1073741823 fill solver keep_given
        (contours_of subject.now.coordinates.now subject.now.ends.now)
        (contours_of clip.now.coordinates.now clip.now.ends.now)
        (graph_at_32 graph.new) result }
{
    let numbers = GraphNumbers {
        fill,
        solver,
        keep_given,
    };
    graph.give(&graph_held(alloc, numbers, &subject.given(), &clip.given()))
}

/// Hands out the shapes of the overlay that the rule and options ask for of a graph that `polyover_arrange_with` handed
/// out, or of one without edges.
#[unsafe(no_mangle)]
#[tactic(auto, using(polyover_calls::proofs::Endings::given))]
pub extern "C" fn polyover_graph_overlay_result_with<'a>(
    alloc: Global,
    graph: &Graph64,
    rule: u32,
    options: &Options64,
    held: &mut Held64<'a>,
) -> u32
    requires { CanBeAsked 4611686018427387903 (graph_at_64 graph.now) }
    ensures { IsGiven (GraphOverlayIsHeld (λ z. z) w128 (λ n. n) (graph_at_64 graph.now) rule
        (options_64 options.now)) (arrays_at_64 held.new) result }
{
    held.give(&graph_overlay_held(alloc, &graph.held(), rule, options.numbers()))
}

/// `polyover_graph_overlay_result_with` at 32 bits.
#[unsafe(no_mangle)]
#[tactic(auto, using(polyover_calls::proofs::Endings::given))]
pub extern "C" fn polyover_graph_overlay_result_with_32<'a>(
    alloc: Global,
    graph: &Graph32,
    rule: u32,
    options: &Options32,
    held: &mut Held32<'a>,
) -> u32
    requires { CanBeAsked 1073741823 (graph_at_32 graph.now) }
    ensures { IsGiven (GraphOverlayIsHeld (λ z. z) w64 (λ n. n) (graph_at_32 graph.now) rule
        (options_32 options.now)) (arrays_at_32 held.new) result }
{
    held.give(&graph_overlay_held(alloc, &graph.held(), rule, options.numbers()))
}

/// Hands out these shapes, and the links between them.
#[unsafe(no_mangle)]
#[tactic(auto, using(polyover_calls::proofs::Endings::given))]
pub extern "C" fn polyover_graph_hierarchy_result_with<'a>(
    alloc: Global,
    graph: &Graph64,
    rule: u32,
    options: &Options64,
    held: &mut Held64<'a>,
) -> u32
    requires { CanBeAsked 4611686018427387903 (graph_at_64 graph.now) }
    ensures { IsGiven (GraphHierarchyIsHeld (λ z. z) w128 (λ n. n) (graph_at_64 graph.now) rule
        (options_64 options.now)) (arrays_at_64 held.new) result }
{
    held.give(&graph_hierarchy_held(alloc, &graph.held(), rule, options.numbers()))
}

/// `polyover_graph_hierarchy_result_with` at 32 bits.
#[unsafe(no_mangle)]
#[tactic(auto, using(polyover_calls::proofs::Endings::given))]
pub extern "C" fn polyover_graph_hierarchy_result_with_32<'a>(
    alloc: Global,
    graph: &Graph32,
    rule: u32,
    options: &Options32,
    held: &mut Held32<'a>,
) -> u32
    requires { CanBeAsked 1073741823 (graph_at_32 graph.now) }
    ensures { IsGiven (GraphHierarchyIsHeld (λ z. z) w64 (λ n. n) (graph_at_32 graph.now) rule
        (options_32 options.now)) (arrays_at_32 held.new) result }
{
    held.give(&graph_hierarchy_held(alloc, &graph.held(), rule, options.numbers()))
}

/// Hands out the edges of the graph, with the sides that are filled.
#[unsafe(no_mangle)]
#[tactic(auto, using(polyover_calls::proofs::Endings::given))]
pub extern "C" fn polyover_graph_edges_result<'a>(
    alloc: Global,
    graph: &Graph64,
    held: &mut Held64<'a>,
) -> u32
    requires { CanBeAsked 4611686018427387903 (graph_at_64 graph.now) }
    ensures { IsGiven (GraphEdgesAreHeld (λ z. z) (graph_at_64 graph.now)) (arrays_at_64 held.new) result }
{
    held.give(&graph_edges_held(alloc, &graph.held()))
}

/// `polyover_graph_edges_result` at 32 bits.
#[unsafe(no_mangle)]
#[tactic(auto, using(polyover_calls::proofs::Endings::given))]
pub extern "C" fn polyover_graph_edges_result_32<'a>(
    alloc: Global,
    graph: &Graph32,
    held: &mut Held32<'a>,
) -> u32
    requires { CanBeAsked 1073741823 (graph_at_32 graph.now) }
    ensures { IsGiven (GraphEdgesAreHeld (λ z. z) (graph_at_32 graph.now)) (arrays_at_32 held.new) result }
{
    held.give(&graph_edges_held(alloc, &graph.held()))
}
