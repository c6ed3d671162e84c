//! Points in the order in which a sweep comes to them.

ghost use Rattle.std.specs.Prelude.{◌≡◌, length, IfOk};
ghost use Rattle.overlay_geom.specs.Numbered.{numbered};
ghost use Rattle.overlay_geom.specs.Points.{plain_points};
ghost use Rattle.overlay_relate.specs.Answers.{AnswersEach};
ghost use Rattle.overlay_relate.specs.Queries.{plain_queries, points_asked, AreQueries, IsAnswered};

use crate::location::PointLocation;
use overlay_geom::number::IntNumber;
use overlay_geom::point::IntPoint;
use std::alloc::{AllocError, Allocator};

/// A point that is asked for.
#[derive(Clone, Copy)]
pub(crate) struct PointQuery<I> {
    /// The point.
    pub point: IntPoint<I>,
    /// Its place among the points.
    pub place: usize,
}

/// Returns the points sorted by x, each with its place.
pub(crate) fn queries_by_x<I: IntNumber, A: Allocator>(
    alloc: A,
    points: &[IntPoint<I>],
) -> Result<Vec<PointQuery<I>, A>, AllocError>
    ensures queries { IfOk result (λ v. AreQueries (plain_points I.whole points.now) (plain_queries I.whole v.items)) }
{
    let mut queries = queries_in_order(alloc, points)?;
    queries.sort_by(|q, r| q.point.x.compare(r.point.x))?;
    Ok(queries)
}

/// The points in their order, each with its place.
fn queries_in_order<I: IntNumber, A: Allocator>(
    alloc: A,
    points: &[IntPoint<I>],
) -> Result<Vec<PointQuery<I>, A>, AllocError>
    ensures ok { IfOk result (λ v. plain_queries I.whole v.items ≡ numbered 0 (plain_points I.whole points.now)) }
{
    let mut queries = Vec::with_capacity(alloc, points.len())?;
    for (place, point) in points.iter().enumerate() {
        queries.push(PointQuery {
            point: *point,
            place,
        })?;
    }
    Ok(queries)
}

/// The points of the queries, in their order.
pub(crate) fn points_asked<I: IntNumber, A: Allocator>(
    alloc: A,
    queries: &[PointQuery<I>],
) -> Result<Vec<IntPoint<I>, A>, AllocError>
    ensures ok { IfOk result (λ v. plain_points I.whole v.items ≡ points_asked (plain_queries I.whole queries.now)) }
{
    let mut points = Vec::with_capacity(alloc, queries.len())?;
    for query in queries {
        points.push(query.point)?;
    }
    Ok(points)
}

/// The answers to queries, in the order of the points.
pub(crate) fn in_given_order<I: IntNumber, A: Allocator>(
    alloc: A,
    points: &[IntPoint<I>],
    queries: &[PointQuery<I>],
    answers: &[PointLocation],
) -> Result<Vec<PointLocation, A>, AllocError>
    requires queries { AreQueries (plain_points I.whole points.now) (plain_queries I.whole queries.now) }
    requires counted { length answers.now ≡ length queries.now }
    ensures ok { IfOk result (λ v. AnswersEach
        (IsAnswered (points_asked (plain_queries I.whole queries.now)) answers.now)
        (plain_points I.whole points.now) v.items) }
{
    let mut ordered = Vec::new(alloc);
    ordered.resize(points.len(), PointLocation::Outside)?;
    for (i, query) in queries.iter().enumerate() {
        ordered[query.place] = answers[i];
    }
    Ok(ordered)
}
