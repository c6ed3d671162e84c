//! Points told of together by edges that count once each, and by the upright ones among them.

ghost use Rattle.std.specs.Prelude.{map, All, IfOk};
ghost use Rattle.overlay_geom.specs.Resolved.{plain_edges, IsLongEdge};
ghost use Rattle.overlay_order.specs.Counts.{boolean_counts};
ghost use Rattle.overlay_located.specs.Once.{counted_once, AreToldOnce};
ghost use Rattle.overlay_located.specs.Queries.{plain_query, IsTold};

use crate::query::Query;
use crate::together::told_of;
use crate::uprights::{turned_points, turned_uprights};
use overlay_geom::edge::IntEdge;
use overlay_geom::number::IntNumber;
use overlay_geom::point::IntPoint;
use overlay_order::count::ShapeCountBoolean;
use std::alloc::{AllocError, Allocator};

// Number of edges from which on they may weigh too much.
const TOO_MANY: usize = 2_147_483_648;

/// What edges tell of points, and what the upright ones tell of them, both with x and y exchanged.
#[derive(Drop)]
pub(crate) struct ToldOnce<I: Copy, A: Allocator> {
    /// What all edges tell.
    pub all: Vec<Query<I, ShapeCountBoolean>, A>,
    /// What the upright ones tell.
    pub uprights: Vec<Query<I, ShapeCountBoolean>, A>,
    /// How often nothing is told of a point.
    pub alone: usize,
}

/// Returns that nothing is told.
pub(crate) fn told_nothing<I: IntNumber, A: Allocator + Clone>(
    alloc: A,
) -> Result<ToldOnce<I, A>, AllocError>
    ensures { (es : _) → IfOk result (λ t. AreToldOnce I.whole es t.all.items t.uprights.items) }
{
    let all = Vec::new(alloc.clone()?);
    let uprights = Vec::new(alloc);
    Ok(ToldOnce {
        all,
        uprights,
        alone: 0,
    })
}

/// Returns what edges that count once, and the upright ones among them, tell of the points.
pub(crate) fn told_once<I: IntNumber, A: Allocator + Clone>(
    alloc: A,
    edges: &[IntEdge<I>],
    points: &[IntPoint<I>],
) -> Result<ToldOnce<I, A>, AllocError>
    requires { All (IsLongEdge I.limit) (plain_edges I.whole edges.now) }
    ensures { IfOk result (λ t. AreToldOnce I.whole (plain_edges I.whole edges.now) t.all.items t.uprights.items) }
{
    let all = told_of_once(alloc.clone()?, edges, points)?;
    let upright = turned_uprights(alloc.clone()?, edges)?;
    let turned = turned_points(alloc.clone()?, points)?;
    let uprights = told_of_once(alloc, &upright, &turned)?;
    let alone = count_alone(&all).saturating_add(count_alone(&uprights));
    Ok(ToldOnce {
        all,
        uprights,
        alone,
    })
}

// Returns the number of queries that have to be asked for alone.
fn count_alone<I: IntNumber>(told: &[Query<I, ShapeCountBoolean>]) -> usize {
    let mut count = 0_usize;
    for q in told {
        if q.alone {
            count = count.saturating_add(1);
        }
    }
    count
}

// Returns what edges that count once tell of the points.
fn told_of_once<I: IntNumber, A: Allocator + Clone>(
    alloc: A,
    edges: &[IntEdge<I>],
    points: &[IntPoint<I>],
) -> Result<Vec<Query<I, ShapeCountBoolean>, A>, AllocError>
    requires { All (IsLongEdge I.limit) (plain_edges I.whole edges.now) }
    ensures { IfOk result (λ v. All (λ q. IsTold (map counted_once (plain_edges I.whole edges.now))
        (plain_query I.whole boolean_counts q)) v.items) }
{
    if edges.len() >= TOO_MANY {
        return Ok(Vec::new(alloc));
    }
    told_of(alloc, edges, points)
}
