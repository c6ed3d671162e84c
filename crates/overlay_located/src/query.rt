//! Points that are asked for together, each with the windings beside it that are found so far.

ghost use Rattle.std.specs.Prelude.{◌≡◌, ◌∷◌, [], ◌^◌, ◌<◌, ◌≤◌, ◌+ℤ◌, true, length, slice_set, All, IfOk, IfSome};
ghost use Rattle.overlay_geom.specs.Numbers.{Within};
ghost use Rattle.overlay_geom.specs.Points.{plain_point};
ghost use Rattle.overlay_order.specs.Content.{plain_edge};
ghost use Rattle.overlay_located.specs.Slabs.{plain_lines};
ghost use Rattle.overlay_located.specs.Queries.{plain_query, IsOpen, IsTold, Adds, AddsSums};

use crate::few::Few;
use crate::line::Line;
use overlay_geom::number::IntNumber;
use overlay_geom::point::IntPoint;
use overlay_order::count::EdgeCount;
use overlay_order::edge::CountedEdge;
use overlay_sectors::flank::Flank;
use overlay_sectors::near::{is_below_near, leads_from};
use std::alloc::{AllocError, Allocator};

/// A point that is asked for, and the windings left and right of it so far.
#[derive(Clone, Copy)]
pub struct Query<I: Copy, C: Copy> {
    // the point
    pub(crate) point: IntPoint<I>,
    // its place among the points
    pub(crate) place: usize,
    // the winding left of it
    pub(crate) left: i64,
    // the winding right of it
    pub(crate) right: i64,
    // the edges that lead from it, so far
    pub(crate) through: Few<I, C>,
    // whether the point has to be asked for alone: the windings do not tell
    pub(crate) alone: bool,
}

/// Returns the points as queries, by their x-coordinates.
pub(crate) fn queries_by_x<I: IntNumber, C: EdgeCount, A: Allocator>(
    alloc: A,
    points: &[IntPoint<I>],
) -> Result<Vec<Query<I, C>, A>, AllocError>
    ensures { (es : _) → IfOk result (λ v. All (λ q. IsOpen es es (plain_query I.whole C.counts q)) v.items) }
{
    let mut queries = Vec::with_capacity(alloc, points.len())?;
    for (place, point) in points.iter().enumerate() {
        queries.push(Query {
            point: *point,
            place,
            left: 0,
            right: 0,
            through: Few::none(),
            alone: false,
        })?;
    }
    queries.sort_by(|q, r| q.point.x.compare(r.point.x))?;
    Ok(queries)
}

/// Returns the points as queries that have to be asked for alone, in their order.
pub(crate) fn untold<I: IntNumber, C: EdgeCount, A: Allocator>(
    alloc: A,
    points: &[IntPoint<I>],
) -> Result<Vec<Query<I, C>, A>, AllocError>
    ensures { (es : _) → IfOk result (λ v. All (λ q. IsTold es (plain_query I.whole C.counts q)) v.items) }
{
    let mut told = Vec::with_capacity(alloc, points.len())?;
    for (place, point) in points.iter().enumerate() {
        told.push(Query {
            point: *point,
            place,
            left: 0,
            right: 0,
            through: Few::none(),
            alone: true,
        })?;
    }
    Ok(told)
}

/// Writes the queries with what the lines tell of each to their places.
pub(crate) fn ask_each<I: IntNumber, C: EdgeCount>(
    lines: &[Line<I, C>],
    queries: &[Query<I, C>],
    told: &mut [Query<I, C>],
)
    ensures { (es : _)
        → All (λ q. IsOpen es (plain_lines I.whole C.counts lines.now) (plain_query I.whole C.counts q)) queries.now
        → All (λ q. IsTold es (plain_query I.whole C.counts q)) told.old
        → All (λ q. IsTold es (plain_query I.whole C.counts q)) told.new }
{
    for q in queries {
        let r = with_lines(*q, lines);
        put(told, r.place, r);
    }
}

// Writes the item to its place, if the list has that.
fn put<T: Copy>(items: &mut [T], place: usize, item: T)
    ensures within { place < length items.old → items.new ≡ slice_set items.old place item }
    ensures beyond { length items.old ≤ place → items.new ≡ items.old }
{
    if place < items.len() {
        items[place] = item;
    }
}

// Returns the query with what the lines tell of its point.
fn with_lines<I: IntNumber, C: EdgeCount>(q: Query<I, C>, lines: &[Line<I, C>]) -> Query<I, C>
    ensures { Adds (plain_lines I.whole C.counts lines.now) (plain_query I.whole C.counts q)
        (plain_query I.whole C.counts result) }
{
    let mut r = q;
    for line in lines {
        r = with_line(r, line);
    }
    r
}

// Returns the query with what the line tells of its point.
fn with_line<I: IntNumber, C: EdgeCount>(q: Query<I, C>, line: &Line<I, C>) -> Query<I, C>
    ensures { Adds (plain_edge I.whole C.counts line.now.edge ∷ []) (plain_query I.whole C.counts q)
        (plain_query I.whole C.counts result) }
{
    let e = &line.edge;
    if leads_from(e, q.point, Flank::Left) || leads_from(e, q.point, Flank::Right) {
        return with_through(q, *e);
    }
    let count = i64::from(e.count.subj());
    let left = if is_below_near(e, q.point, Flank::Left, None) {
        count
    } else {
        0
    };
    let right = if is_below_near(e, q.point, Flank::Right, None) {
        count
    } else {
        0
    };
    with_sums(q, left, right)
}

/// Returns the query with numbers added to its windings. Where a sum may be too great, the point is asked for alone.
pub(crate) fn with_sums<I: IntNumber, C: EdgeCount>(
    q: Query<I, C>,
    left: i64,
    right: i64,
) -> Query<I, C>
    ensures { AddsSums left right (plain_query I.whole C.counts q) (plain_query I.whole C.counts result) }
{
    let Some(left) = sum(q.left, left) else {
        return asked_alone(q);
    };
    let Some(right) = sum(q.right, right) else {
        return asked_alone(q);
    };
    Query {
        point: q.point,
        place: q.place,
        left,
        right,
        through: q.through,
        alone: q.alone,
    }
}

/// Returns the query with one more edge that leads from its point. Where there are too many, the point is asked for
/// alone.
pub(crate) fn with_through<I: IntNumber, C: EdgeCount>(
    q: Query<I, C>,
    e: CountedEdge<I, C>,
) -> Query<I, C>
    ensures { Adds (plain_edge I.whole C.counts e ∷ []) (plain_query I.whole C.counts q)
        (plain_query I.whole C.counts result) }
{
    match q.through.with(e) {
        Some(through) => Query {
            point: q.point,
            place: q.place,
            left: q.left,
            right: q.right,
            through,
            alone: q.alone,
        },
        None => asked_alone(q),
    }
}

/// Returns the query as one that has to be asked for alone.
pub(crate) fn asked_alone<I: IntNumber, C: EdgeCount>(q: Query<I, C>) -> Query<I, C>
    ensures point { plain_point I.whole result.point ≡ plain_point I.whole q.point }
    ensures alone { result.alone ≡ true }
{
    Query {
        point: q.point,
        place: q.place,
        left: q.left,
        right: q.right,
        through: q.through,
        alone: true,
    }
}

/// Returns the sum of two windings, unless one is very great.
pub(crate) fn sum(x: i64, y: i64) -> Option<i64>
    ensures { IfSome result (λ z. z ≡ x +ℤ y) }
{
    if is_small(x) && is_small(y) {
        Some(x + y)
    } else {
        None
    }
}

// Returns whether the number is far less than the greatest, and far greater than the least.
fn is_small(x: i64) -> bool
    ensures { result ≡ true → Within (2 ^ 40) x }
{
    -1_099_511_627_776 < x && x < 1_099_511_627_776
}
