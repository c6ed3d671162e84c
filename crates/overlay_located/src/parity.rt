//! Where a point lies by edges that count once each, as they and the upright ones among them were told of together.

ghost use Rattle.std.specs.Prelude.{◌≡◌, true, cond, map, All, IfSome};
ghost use Rattle.overlay_geom.specs.Plane.{in_plane};
ghost use Rattle.overlay_geom.specs.Points.{plain_point};
ghost use Rattle.overlay_geom.specs.Resolved.{IsLongEdge};
ghost use Rattle.overlay_order.specs.Content.{plain_edge, plain_edges};
ghost use Rattle.overlay_order.specs.Counts.{boolean_counts};
ghost use Rattle.overlay_relate.specs.Locations.{IsLocatedBy};
ghost use Rattle.overlay_located.specs.Few.{if_some};
ghost use Rattle.overlay_located.specs.Once.{counted_once, turned_point, turned_uprights, Lead, LeadFirst, TellsOf};
ghost use Rattle.overlay_located.specs.Queries.{plain_query, IsTold};
ghost use Rattle.overlay_located.specs.Tells.{LeadsFrom};

use crate::query::Query;
use crate::told::is_held;
use overlay_geom::edge_pair::is_same;
use overlay_geom::fill_rule::FillRule;
use overlay_geom::number::IntNumber;
use overlay_geom::point::IntPoint;
use overlay_order::count::ShapeCountBoolean;
use overlay_order::edge::CountedEdge;
use overlay_relate::location::PointLocation;
use overlay_sectors::flank::Flank;
use overlay_sectors::near::leads_from;

/// Returns where the point lies, if both queries at the place tell of it: on an edge, or else inside where an odd
/// number of edges are below it.
pub(crate) fn parity_location<I: IntNumber>(
    told: &[Query<I, ShapeCountBoolean>],
    uprights: &[Query<I, ShapeCountBoolean>],
    place: usize,
    p: IntPoint<I>,
) -> Option<PointLocation>
    ensures { (es : _) → All (IsLongEdge I.limit) es
        → All (λ q. IsTold (map counted_once es) (plain_query I.whole boolean_counts q)) told.now
        → All (λ q. IsTold (map counted_once (turned_uprights es)) (plain_query I.whole boolean_counts q)) uprights.now
        → IfSome result (IsLocatedBy es (in_plane (plain_point I.whole p))) }
{
    let q = told_at(told, place, p)?;
    let r = told_at(uprights, place, turned(p))?;
    let is_on = do_lead(q)?;
    let is_on_upright = do_lead(r)?;
    let is_odd = FillRule::EvenOdd.fills(q.right);
    Some(location_by(is_on | is_on_upright, is_odd))
}

// Returns where a point lies, by whether it is on an edge, and else inside.
fn location_by(is_on: bool, is_inside: bool) -> PointLocation
    ensures { result ≡ cond is_on PointLocation.Boundary (cond is_inside PointLocation.Inside PointLocation.Outside) }
{
    if is_on {
        PointLocation::Boundary
    } else if is_inside {
        PointLocation::Inside
    } else {
        PointLocation::Outside
    }
}

// Returns the query at the place, if it is for this point and tells of it.
fn told_at<I: IntNumber>(
    told: &[Query<I, ShapeCountBoolean>],
    place: usize,
    p: IntPoint<I>,
) -> Option<Query<I, ShapeCountBoolean>>
    ensures { (es : _) → All (λ q. IsTold es (plain_query I.whole boolean_counts q)) told.now
        → IfSome result (λ q. TellsOf es (plain_point I.whole p) (plain_query I.whole boolean_counts q)) }
{
    if place >= told.len() {
        return None;
    }
    let q = told[place];
    if q.alone || !is_same(q.point, p) {
        return None;
    }
    Some(q)
}

// Returns whether edges lead from the point of the query, where it is known.
fn do_lead<I: IntNumber>(q: Query<I, ShapeCountBoolean>) -> Option<bool>
    ensures { IfSome result (Lead (plain_point I.whole q.point) (plain_query I.whole boolean_counts q).through) }
{
    let is_none = q.through.is_none();
    first_leads(q.through.first, q.point, is_none)
}

// Returns true where the first edge leads from the point, and false where there is no edge at all.
fn first_leads<I: IntNumber>(
    first: Option<CountedEdge<I, ShapeCountBoolean>>,
    p: IntPoint<I>,
    is_none: bool,
) -> Option<bool>
    ensures { IfSome result
        (LeadFirst (plain_point I.whole p) (plain_edges I.whole boolean_counts (if_some first)) is_none) }
{
    match first {
        Some(e) => { if leads(&e, p) { Some(true) } else { None } }
        None => { if is_none { Some(false) } else { None } }
    }
}

// Returns whether the edge is in range and leads from the point.
fn leads<I: IntNumber>(e: &CountedEdge<I, ShapeCountBoolean>, p: IntPoint<I>) -> bool
    ensures { result ≡ true → LeadsFrom (plain_point I.whole p) (plain_edge I.whole boolean_counts e.now) }
{
    is_held(e) && (leads_from(e, p, Flank::Left) || leads_from(e, p, Flank::Right))
}

/// Returns the point with x and y exchanged.
pub(crate) fn turned<I: IntNumber>(p: IntPoint<I>) -> IntPoint<I>
    ensures { plain_point I.whole result ≡ turned_point (plain_point I.whole p) }
{
    IntPoint { x: p.y, y: p.x }
}
