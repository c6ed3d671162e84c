//! Graphs that C holds, taken back to be asked.

ghost use Rattle.std.specs.Prelude.{◌≡◌, ◌<◌, map, IfOk};
ghost use Rattle.overlay_graph.specs.Graphs.{graph_edges};
ghost use Rattle.polyover_calls.specs.Asked.{fill_of};
ghost use Rattle.polyover_views.specs.Held.{CanBeAsked, graph_of};

use crate::made::HeldGraph;
use overlay_geom::fill_rule::FillRule;
use overlay_geom::integer::OverlayInt;
use overlay_graph::graph::Graph;
use overlay_order::data::CountWithData;
use overlay_order::edge::CountedEdge;
use overlay_relate::form::FormOf;
use std::alloc::{AllocError, Global};

/// The graph with these edges, with its filled sides.
pub(crate) fn taken_graph<I: OverlayInt, E: FormOf<CountedEdge<I, CountWithData<()>>>>(
    alloc: Global,
    graph: &HeldGraph<E>,
) -> Result<Graph<I, CountWithData<()>, Global>, AllocError>
    requires { CanBeAsked I.limit (graph_of I.whole E.meant graph.now) }
    ensures edges { IfOk result (λ g. graph_edges g ≡ (graph_of I.whole E.meant graph.now).edges) }
    ensures rule { IfOk result (λ g. g.fill_rule ≡ fill_of graph.now.fill) }
{
    let edges = taken_edges(alloc, graph.edges)?;
    Graph::of_balanced(alloc, &edges, known_fill(graph.fill))
}

// The edges that are in this form.
fn taken_edges<T: Copy, E: FormOf<T>>(
    alloc: Global,
    held: &[E],
) -> Result<Vec<T, Global>, AllocError>
    ensures { IfOk result (λ v. v.items ≡ map E.meant held.now) }
{
    let mut edges = Vec::with_capacity(alloc, held.len())?;
    for edge in held {
        edges.push(edge.value())?;
    }
    Ok(edges)
}

// The fill rule with the number, which is known.
fn known_fill(number: u32) -> FillRule
    requires { number < 4 }
    ensures { result ≡ fill_of number }
{
    match number {
        0 => FillRule::EvenOdd,
        1 => FillRule::NonZero,
        2 => FillRule::Positive,
        _ => FillRule::Negative,
    }
}
