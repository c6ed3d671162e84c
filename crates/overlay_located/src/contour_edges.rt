//! The edges of the contours of a shape.

ghost use Rattle.std.specs.Prelude.{◌≡◌, ◌++◌, [], ◌∷◌, All, IfOk, OnOk};
ghost use Rattle.overlay_geom.specs.Paths.{paths_of_shape};
ghost use Rattle.overlay_geom.specs.Points.{plain_point, plain_points, InRange, AllInRange};
ghost use Rattle.overlay_geom.specs.Resolved.{plain_edges, edges_between, edges_through, edges_of, IsLongEdge};
ghost use Rattle.overlay_relate.specs.Locations.{shape_edges};

use overlay_geom::edge::{IntEdge, edge_between};
use overlay_geom::number::IntNumber;
use overlay_geom::path::IntContour;
use overlay_geom::point::IntPoint;
use std::alloc::{AllocError, Allocator};

/// Returns the edges of the contours' steps, in their order.
pub(crate) fn shape_edges<I: IntNumber, A: Allocator, B: Allocator>(
    alloc: B,
    contours: &[IntContour<I, A>],
) -> Result<Vec<IntEdge<I>, B>, AllocError>
    requires { All (AllInRange I.limit) (paths_of_shape I.whole contours.now) }
    ensures edges { IfOk result (λ v. plain_edges I.whole v.items ≡ shape_edges (paths_of_shape I.whole contours.now)) }
    ensures long { IfOk result (λ v. All (IsLongEdge I.limit) (plain_edges I.whole v.items)) }
{
    let mut edges = Vec::new(alloc);
    for contour in contours {
        push_contour(&mut edges, contour)?;
    }
    Ok(edges)
}

// Adds the edges of the contour's steps.
fn push_contour<I: IntNumber, A: Allocator>(
    edges: &mut Vec<IntEdge<I>, A>,
    contour: &[IntPoint<I>],
) -> Result<(), AllocError>
    requires contour { AllInRange I.limit (plain_points I.whole contour.now) }
    requires long { All (IsLongEdge I.limit) (plain_edges I.whole edges.old.items) }
    ensures ok { OnOk result (plain_edges I.whole edges.new.items
        ≡ plain_edges I.whole edges.old.items ++ edges_of (plain_points I.whole contour.now)) }
    ensures long { All (IsLongEdge I.limit) (plain_edges I.whole edges.new.items) }
{
    let Some(first) = contour.first() else {
        return Ok(());
    };
    push_round(edges, *first, contour)
}

// Adds the edges of the steps from a point of a closed list through its points and back to it.
fn push_round<I: IntNumber, A: Allocator>(
    edges: &mut Vec<IntEdge<I>, A>,
    first: IntPoint<I>,
    contour: &[IntPoint<I>],
) -> Result<(), AllocError>
    requires first { InRange I.limit (plain_point I.whole first) }
    requires contour { AllInRange I.limit (plain_points I.whole contour.now) }
    requires long { All (IsLongEdge I.limit) (plain_edges I.whole edges.old.items) }
    ensures ok { OnOk result (plain_edges I.whole edges.new.items ≡ plain_edges I.whole edges.old.items
        ++ edges_through (plain_point I.whole first)
        (plain_points I.whole contour.now ++ plain_point I.whole first ∷ [])) }
    ensures long { All (IsLongEdge I.limit) (plain_edges I.whole edges.new.items) }
{
    let mut from = first;
    for to in contour {
        push_step(edges, from, *to)?;
        from = *to;
    }
    push_step(edges, from, first)
}

// Adds the edge of the step between two points, if they differ.
fn push_step<I: IntNumber, A: Allocator>(
    edges: &mut Vec<IntEdge<I>, A>,
    from: IntPoint<I>,
    to: IntPoint<I>,
) -> Result<(), AllocError>
    requires from { InRange I.limit (plain_point I.whole from) }
    requires to { InRange I.limit (plain_point I.whole to) }
    requires long { All (IsLongEdge I.limit) (plain_edges I.whole edges.old.items) }
    ensures ok { OnOk result (plain_edges I.whole edges.new.items ≡ plain_edges I.whole edges.old.items
        ++ edges_between (plain_point I.whole from) (plain_point I.whole to)) }
    ensures long { All (IsLongEdge I.limit) (plain_edges I.whole edges.new.items) }
{
    if let Some(edge) = edge_between(from, to) {
        edges.push(edge)?;
    }
    Ok(())
}
