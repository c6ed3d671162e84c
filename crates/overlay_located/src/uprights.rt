//! The upright edges of a list, with x and y exchanged.

ghost use Rattle.std.specs.Prelude.{◌≡◌, ◌++◌, IfOk, OnOk};
ghost use Rattle.overlay_geom.specs.Resolved.{plain_edge, plain_edges};
ghost use Rattle.overlay_located.specs.Once.{turned_if_upright, turned_uprights};

use crate::parity::turned;
use overlay_geom::edge::IntEdge;
use overlay_geom::number::IntNumber;
use overlay_geom::point::IntPoint;
use std::alloc::{AllocError, Allocator};

/// Returns the upright edges, in their order, with x and y exchanged.
pub(crate) fn turned_uprights<I: IntNumber, A: Allocator>(
    alloc: A,
    edges: &[IntEdge<I>],
) -> Result<Vec<IntEdge<I>, A>, AllocError>
    ensures { IfOk result (λ v. plain_edges I.whole v.items ≡ turned_uprights (plain_edges I.whole edges.now)) }
{
    let mut uprights = Vec::new(alloc);
    for number in 0..edges.len() {
        push_if_upright(&mut uprights, &edges[number])?;
    }
    Ok(uprights)
}

// Adds the edge, with x and y exchanged, if it is upright.
fn push_if_upright<I: IntNumber, A: Allocator>(
    uprights: &mut Vec<IntEdge<I>, A>,
    e: &IntEdge<I>,
) -> Result<(), AllocError>
    ensures { OnOk result (plain_edges I.whole uprights.new.items
        ≡ plain_edges I.whole uprights.old.items ++ turned_if_upright (plain_edge I.whole e.now)) }
{
    if e.a.x.compare(e.b.x).is_eq() {
        uprights.push(IntEdge {
            a: turned(e.a),
            b: turned(e.b),
        })?;
    }
    Ok(())
}

/// Returns the points, in their order, with x and y exchanged.
pub(crate) fn turned_points<I: IntNumber, A: Allocator>(
    alloc: A,
    points: &[IntPoint<I>],
) -> Result<Vec<IntPoint<I>, A>, AllocError> {
    let mut all = Vec::with_capacity(alloc, points.len())?;
    for p in points {
        all.push(turned(*p))?;
    }
    Ok(all)
}
