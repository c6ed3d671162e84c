//! Points that are asked for together: halves of them again and again, with the edges that do not span their slab.

ghost use Rattle.std.specs.Prelude.{map, All, IfOk};
ghost use Rattle.overlay_order.specs.Content.{plain_edges, IsContent};
ghost use Rattle.overlay_located.specs.Slabs.{plain_lines};
ghost use Rattle.overlay_located.specs.Queries.{plain_query, IsOpen, IsTold};

use crate::chain::with_chain;
use crate::heights::lines_of;
use crate::line::Line;
use crate::node::node_over;
use crate::query::{Query, ask_each, queries_by_x, untold};
use crate::slab::Slab;
use overlay_geom::number::IntNumber;
use overlay_geom::point::IntPoint;
use overlay_order::count::EdgeCount;
use overlay_sectors::form::EdgeForm;
use std::alloc::{AllocError, Allocator};

// Greatest number of points, or of edges, that are asked one by one in a half.
const FEW: usize = 8;

// Least number of points, and of edges, that pay.
const MANY: usize = 64;

// Greatest number of edges for each point that pays. Where there are more, points are asked alone in less time, as
// blocks of edges are passed over.
const EDGES_A_POINT: usize = 32;

/// Returns whether points are asked together in less time than alone: from 64 points and 64 edges on, where there are
/// at most 32 edges for each point.
pub fn pays(edges: usize, points: usize) -> bool {
    MANY <= edges && MANY <= points && edges / EDGES_A_POINT <= points
}

/// Returns what the edges tell of each of the points, in their order, for `located::locate_told`. The edges may cross
/// and overlap. Where few cross, and few begin or end above one another, n points and n edges take about n log^2 n
/// steps.
pub fn told_of<I: IntNumber, C: EdgeCount, E: EdgeForm<I, C>, A: Allocator + Clone>(
    alloc: A,
    edges: &[E],
    points: &[IntPoint<I>],
) -> Result<Vec<Query<I, C>, A>, AllocError>
    requires { IsContent I.limit (plain_edges I.whole C.counts (map E.meant edges.now)) }
    ensures { IfOk result (λ v. All (λ q. IsTold (plain_edges I.whole C.counts (map E.meant edges.now))
        (plain_query I.whole C.counts q)) v.items) }
{
    let lines = lines_of(alloc.clone()?, edges)?;
    let queries = queries_by_x(alloc.clone()?, points)?;
    let mut told = untold(alloc.clone()?, points)?;
    ask(alloc, &lines, &queries, &mut told)?;
    Ok(told)
}

// Writes to the place of each query the windings beside its point, unless it has to be asked for alone. The queries
// tell what all edges do, together with the lines.
fn ask<I: IntNumber, C: EdgeCount, A: Allocator + Clone>(
    alloc: A,
    lines: &[Line<I, C>],
    queries: &[Query<I, C>],
    told: &mut [Query<I, C>],
) -> Result<(), AllocError>
    ensures { (es : _)
        → All (λ q. IsOpen es (plain_lines I.whole C.counts lines.now) (plain_query I.whole C.counts q)) queries.now
        → All (λ q. IsTold es (plain_query I.whole C.counts q)) told.old
        → All (λ q. IsTold es (plain_query I.whole C.counts q)) told.new }
{
    if queries.len() <= FEW || lines.len() <= FEW {
        ask_each(lines, queries, told);
        return Ok(());
    }
    let slab = Slab {
        from: queries[0].point.x,
        to: queries[queries.len() - 1].point.x,
    };
    let node = node_over(alloc.clone()?, lines, slab)?;
    if node.is_crossed {
        return Ok(());
    }
    let rest = with_chain(alloc.clone()?, &node.chain, slab, queries)?;
    let halves = rest.split_at(rest.len() / 2);
    ask(alloc.clone()?, &node.kept, halves.0, told)?;
    ask(alloc, &node.kept, halves.1, told)
}
