//! The text of an answer.

ghost use Rattle.std.specs.Prelude.{◌≡◌, IfOk, OnOk, ◌++◌, map, string_bytes};
ghost use Rattle.overlay_order.specs.Vectors.{plain_vector};
ghost use Rattle.polyover_text.specs.Printed.{edge_line, edge_lines};

use overlay_order::vector::DataVectorEdge;
use std::alloc::{AllocError, Allocator};
use std::fmt::Write;

/// A line for each edge: `edge ax ay bx by fill`.
pub fn edges_text<A: Allocator>(
    alloc: A,
    edges: &[DataVectorEdge<i64, ()>],
) -> Result<String<A>, AllocError>
    ensures { IfOk result
        (λ text. string_bytes text ≡ edge_lines (map (plain_vector (λ z. z)) edges.now)) }
{
    let mut text = String::new(alloc);
    for edge in edges {
        push_edge(&mut text, edge)?;
    }
    Ok(text)
}

fn push_edge<A: Allocator>(
    text: &mut String<A>,
    edge: &DataVectorEdge<i64, ()>,
) -> Result<(), AllocError>
    ensures { OnOk result
        (string_bytes text.new ≡ string_bytes text.old ++ edge_line (plain_vector (λ z. z) edge.now)) }
{
    let (a, b, fill) = (edge.a, edge.b, edge.fill);
    writeln!(text, "edge {} {} {} {} {fill}", a.x, a.y, b.x, b.y)
}
