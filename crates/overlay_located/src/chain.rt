//! Chains: edges that span a slab, each under the next, with the sums of their counts.

ghost use Rattle.std.specs.Prelude.{◌≡◌, ◌++◌, ◌∷◌, [], ◌≤◌, true, false, length, All, IfOk, IfSome};
ghost use Rattle.overlay_geom.specs.Points.{plain_point};
ghost use Rattle.overlay_order.specs.Content.{plain_edge};
ghost use Rattle.overlay_located.specs.Slabs.{plain_lines, plain_slab, Spans, IsWithin};
ghost use Rattle.overlay_located.specs.Chains.{plain_links, edges_of, IsInSpan, IsChain, IsAmong, HasChain};
ghost use Rattle.overlay_located.specs.Queries.{plain_query, Adds, IsOpen};
ghost use Rattle.overlay_located.specs.Tells.{TellsWhere};

use crate::heights::is_under;
use crate::line::Line;
use crate::query::{Query, asked_alone, sum, with_sums, with_through};
use crate::slab::{Slab, is_within};
use overlay_geom::number::IntNumber;
use overlay_geom::point::IntPoint;
use overlay_order::count::EdgeCount;
use overlay_sectors::near::height_over;
use std::alloc::{AllocError, Allocator};

/// An edge of a chain.
#[derive(Drop)]
pub(crate) struct Link<I: IntNumber, C: EdgeCount> {
    /// The edge.
    pub line: Line<I, C>,
    /// The sum of the counts of the edges up to it.
    pub sum: i64,
}

/// Returns a chain of edges that span the slab. Edges that it cannot take are added to `kept`.
pub(crate) fn chain_of<I: IntNumber, C: EdgeCount, A: Allocator>(
    alloc: A,
    lines: &[Line<I, C>],
    kept: &mut Vec<Line<I, C>, A>,
) -> Result<Vec<Link<I, C>, A>, AllocError>
    ensures { (s : _) → All (Spans s) (plain_lines I.whole C.counts lines.now)
        → IfOk result (λ v. HasChain s
        (plain_lines I.whole C.counts kept.old.items ++ plain_lines I.whole C.counts lines.now)
        (plain_links I.whole C.counts v.items) (plain_lines I.whole C.counts kept.new.items)) }
{
    let mut chain = Vec::new(alloc);
    for line in lines {
        match sum_with(&chain, line) {
            Some(sum) => chain.push(Link {
                line: Line { edge: line.edge },
                sum,
            })?,
            None => kept.push(Line { edge: line.edge })?,
        }
    }
    Ok(chain)
}

// Returns the sum of the counts of the chain and of the edge, if the chain can take it.
fn sum_with<I: IntNumber, C: EdgeCount>(chain: &[Link<I, C>], line: &Line<I, C>) -> Option<i64>
    ensures { (s : _) → IsChain s (plain_links I.whole C.counts chain.now)
        → Spans s (plain_edge I.whole C.counts line.now.edge)
        → IfSome result (λ z. IsChain s (plain_links I.whole C.counts chain.now
        ++ record { edge = plain_edge I.whole C.counts line.now.edge; sum = z } ∷ [])) }
{
    let count = i64::from(line.edge.count.subj());
    if chain.len() == 0 {
        return Some(count);
    }
    let last = &chain[chain.len() - 1];
    if is_under(&last.line, line) {
        sum(last.sum, count)
    } else {
        None
    }
}

// Returns a place in the chain: where its edges are in order of height, those before it are below the point.
fn place_over<I: IntNumber, C: EdgeCount>(chain: &[Link<I, C>], p: IntPoint<I>) -> usize
    requires over { All (λ e. IsInSpan e (plain_point I.whole p)) (edges_of (plain_links I.whole C.counts chain.now)) }
    ensures { result ≤ length chain.now }
{
    let mut low = 0;
    let mut high = chain.len();
    while low < high {
        let middle = low + (high - low) / 2;
        if height_over(&chain[middle].line.edge, p).is_gt() {
            low = middle + 1;
        } else {
            high = middle;
        }
    }
    low
}

/// Returns the queries, in their order, with what the chain tells of their points. Points outside of the slab are asked
/// for alone.
pub(crate) fn with_chain<I: IntNumber, C: EdgeCount, A: Allocator>(
    alloc: A,
    chain: &[Link<I, C>],
    slab: Slab<I>,
    queries: &[Query<I, C>],
) -> Result<Vec<Query<I, C>, A>, AllocError>
    requires { IsChain (plain_slab I.whole slab) (plain_links I.whole C.counts chain.now) }
    ensures fewer { (es rest kept : _)
        → TellsWhere (IsWithin (plain_slab I.whole slab)) rest
        (edges_of (plain_links I.whole C.counts chain.now) ++ kept)
        → All (λ q. IsOpen es rest (plain_query I.whole C.counts q)) queries.now
        → IfOk result (λ v. All (λ q. IsOpen es kept (plain_query I.whole C.counts q)) v.items) }
    ensures counted { IfOk result (λ v. length v.items ≡ length queries.now) }
{
    let mut rest = Vec::with_capacity(alloc, queries.len())?;
    for q in queries {
        rest.push(passed(chain, slab, *q))?;
    }
    Ok(rest)
}

// Returns the query with what the chain tells of its point.
fn passed<I: IntNumber, C: EdgeCount>(
    chain: &[Link<I, C>],
    slab: Slab<I>,
    q: Query<I, C>,
) -> Query<I, C>
    requires { IsChain (plain_slab I.whole slab) (plain_links I.whole C.counts chain.now) }
    ensures within { result.alone ≡ false → IsWithin (plain_slab I.whole slab) (plain_point I.whole q.point) }
    ensures adds { Adds (edges_of (plain_links I.whole C.counts chain.now)) (plain_query I.whole C.counts q)
        (plain_query I.whole C.counts result) }
{
    if !is_within(slab, q.point) {
        return asked_alone(q);
    }
    let start = place_over(chain, q.point);
    let end = end_of_level(chain, start, q.point);
    if !is_among(chain, start, end, q.point) {
        return asked_alone(q);
    }
    let sum = if start > 0 { chain[start - 1].sum } else { 0 };
    with_level(with_sums(q, sum, sum), &chain[start..end])
}

// Returns the end of the edges from a place on that lead through the point.
fn end_of_level<I: IntNumber, C: EdgeCount>(
    chain: &[Link<I, C>],
    start: usize,
    p: IntPoint<I>,
) -> usize
    requires over { All (λ e. IsInSpan e (plain_point I.whole p)) (edges_of (plain_links I.whole C.counts chain.now)) }
    requires within { start ≤ length chain.now }
    ensures from { start ≤ result }
    ensures within { result ≤ length chain.now }
{
    let mut end = start;
    while end < chain.len() && height_over(&chain[end].line.edge, p).is_eq() {
        end += 1;
    }
    end
}

// Returns whether the point is above the edge before the first place, and below that at the second.
fn is_among<I: IntNumber, C: EdgeCount>(
    chain: &[Link<I, C>],
    start: usize,
    end: usize,
    p: IntPoint<I>,
) -> bool
    requires over { All (λ e. IsInSpan e (plain_point I.whole p)) (edges_of (plain_links I.whole C.counts chain.now)) }
    requires ordered { start ≤ end }
    requires within { end ≤ length chain.now }
    ensures { (s : _) → IsChain s (plain_links I.whole C.counts chain.now) → IsWithin s (plain_point I.whole p)
        → result ≡ true
        → IsAmong (plain_links I.whole C.counts chain.now) (plain_point I.whole p) start end }
{
    if start > 0 && !height_over(&chain[start - 1].line.edge, p).is_gt() {
        return false;
    }
    end == chain.len() || height_over(&chain[end].line.edge, p).is_lt()
}

// Returns the query with the edges, which lead from its point.
fn with_level<I: IntNumber, C: EdgeCount>(q: Query<I, C>, level: &[Link<I, C>]) -> Query<I, C>
    ensures { Adds (edges_of (plain_links I.whole C.counts level.now)) (plain_query I.whole C.counts q)
        (plain_query I.whole C.counts result) }
{
    let mut r = q;
    for link in level {
        r = with_through(r, link.line.edge);
    }
    r
}
