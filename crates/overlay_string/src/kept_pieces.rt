//! The pieces of strings that a clip keeps.

ghost use Rattle.std.specs.Prelude.{◌≡◌, ◌++◌, ◌∷◌, [], cond, IfOk, OnOk};
ghost use Rattle.overlay_order.specs.Counts.{has_bit};
ghost use Rattle.overlay_geom.specs.Points.{plain_point};
ghost use Rattle.overlay_graph.specs.Graphs.{graph_edges};
ghost use Rattle.overlay_string.specs.ClipPieces.{clip_pieces, keeps_sides};
ghost use Rattle.overlay_string.specs.Pieces.{plain_pieces, pieces_by_bits};

use crate::clip_rule::ClipRule;
use crate::piece::Piece;
use overlay_geom::number::IntNumber;
use overlay_geom::point::IntPoint;
use overlay_graph::graph::Graph;
use overlay_order::string_count::ShapeCountString;
use overlay_order::vector::{DataVectorEdge, SUBJ_LEFT, SUBJ_RIGHT, SideFill};
use std::alloc::{AllocError, Allocator};

/// The pieces that a clip keeps of the strings along the edges of the graph, in the order of the edges.
pub(crate) fn kept_pieces<I: IntNumber, A: Allocator + Clone>(
    graph: &Graph<I, ShapeCountString, A>,
    rule: ClipRule,
) -> Result<Vec<Piece<I>, A>, AllocError>
    ensures ok { IfOk result (λ v.
        plain_pieces I.whole v.items ≡ clip_pieces graph.now.fill_rule rule (graph_edges graph.now)) }
{
    let mut pieces = Vec::new(graph.allocator().clone()?);
    let edges = graph.edges();
    for edge in edges {
        push_kept(&mut pieces, *edge, rule)?;
    }
    Ok(pieces)
}

// Adds the pieces along an edge, if the rule keeps it.
fn push_kept<I: IntNumber, A: Allocator>(
    pieces: &mut Vec<Piece<I>, A>,
    edge: DataVectorEdge<I, ShapeCountString>,
    rule: ClipRule,
) -> Result<(), AllocError>
    ensures ok { OnOk result (plain_pieces I.whole pieces.new.items
        ≡ plain_pieces I.whole pieces.old.items ++ pieces_by_bits I.whole rule edge) }
{
    if !is_kept(edge.fill, rule) {
        return Ok(());
    }
    push_if(pieces, edge.edge_data.is_along(), edge.a, edge.b)?;
    push_if(pieces, edge.edge_data.is_against(), edge.b, edge.a)
}

// Adds the piece between two points, if a string runs so.
fn push_if<I: IntNumber, A: Allocator>(
    pieces: &mut Vec<Piece<I>, A>,
    runs_so: bool,
    from: IntPoint<I>,
    to: IntPoint<I>,
) -> Result<(), AllocError>
    ensures ok { OnOk result (plain_pieces I.whole pieces.new.items ≡ plain_pieces I.whole pieces.old.items
        ++ cond runs_so (record { from = plain_point I.whole from; to = plain_point I.whole to } ∷ []) []) }
{
    if runs_so {
        pieces.push(Piece { from, to })?;
    }
    Ok(())
}

// Whether the rule keeps an edge with these filled sides.
fn is_kept(fill: SideFill, rule: ClipRule) -> bool
    ensures { result ≡ keeps_sides rule (has_bit fill 0) (has_bit fill 1) }
{
    let is_left = is_filled_left(fill);
    if is_left != is_filled_right(fill) {
        return rule.boundary_included;
    }
    is_left != rule.invert
}

// Whether the left side is filled by the shape.
fn is_filled_left(fill: SideFill) -> bool
    ensures { result ≡ has_bit fill 0 }
{
    fill & SUBJ_LEFT != 0
}

// Whether the right side is.
fn is_filled_right(fill: SideFill) -> bool
    ensures { result ≡ has_bit fill 1 }
{
    fill & SUBJ_RIGHT != 0
}
