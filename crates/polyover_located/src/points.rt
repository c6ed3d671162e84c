//! Where points in an array lie in a shape as it is given. Many points are asked together, or, where memory is refused,
//! each alone.

ghost use Rattle.std.specs.Prelude.{◌≡◌, MatchResult, ◌<◌, map, All, IfOk};
ghost use Rattle.overlay_located.specs.Queries.{plain_query, IsTold};
ghost use Rattle.overlay_order.specs.Content.{plain_edges, IsContent};
ghost use Rattle.overlay_order.specs.Counts.{boolean_counts};
ghost use Rattle.polyover_calls.specs.Asked.{fill_of};
ghost use Rattle.polyover_calls.specs.Located.{number_of};
ghost use Rattle.polyover_calls.specs.Prepared.{HaveRoom, IsAskingRefused};
ghost use Rattle.polyover_calls.specs.Reading.{ArePoints};
ghost use Rattle.polyover_located.specs.Held.{CanBeAsked, parts_of, shape_of};
ghost use Rattle.polyover_located.specs.Asked.{AreLocatedIn, ExactAskingEnds};

use crate::prepare::HeldShape;
use overlay_geom::fill_rule::FillRule;
use overlay_geom::integer::OverlayInt;
use overlay_geom::point::IntPoint;
use overlay_located::located::locate_told;
use overlay_located::query::Query;
use overlay_located::together::{pays, told_of};
use overlay_order::count::ShapeCountBoolean;
use overlay_relate::blocks::Block;
use overlay_relate::form::FormOf;
use overlay_relate::location::PointLocation;
use overlay_sectors::blocks::BlockedEdges;
use overlay_sectors::form::EdgeForm;
use polyover_calls::status::Status;
use polyover_calls::test::are_within;
use std::alloc::{AllocError, Global};

// Greatest number of points that are asked together.
const TOGETHER: usize = 65_536;

/// Writes where each point lies in the shape with these parts, as a number for each.
#[tactic(auto, using(crate::proofs::Asking::asked_ends, crate::proofs::Asking::unasked_ends))]
pub fn locate_exactly<I: OverlayInt, E: EdgeForm<I, ShapeCountBoolean>, B: FormOf<Block<I>>>(
    alloc: Global,
    shape: &HeldShape<E, B>,
    points: &[I],
    locations: &mut [u8],
) -> Status
    requires { CanBeAsked I.limit (parts_of I.whole E.meant B.meant shape.now) }
    ensures { ExactAskingEnds I.whole I.limit (parts_of I.whole E.meant B.meant shape.now) points.now locations.old
        locations.new result }
{
    match tested_room(points, locations) {
        Ok(()) => {
            write_locations(alloc, shape, points, locations);
            Status::Done
        }
        Err(status) => status,
    }
}

// Tests whether the coordinates are points, and whether there is a place for each.
#[tactic(auto, using(crate::proofs::Asking::odd_count, crate::proofs::Asking::out_of_range))]
fn tested_room<I: OverlayInt>(points: &[I], locations: &[u8]) -> Result<(), Status>
    ensures { MatchResult result
        (λ _. ArePoints I.whole I.limit points.now × HaveRoom points.now locations.now)
        (IsAskingRefused I.whole I.limit points.now locations.now) }
{
    if points.len() % 2 != 0 {
        return Err(Status::BadEnds);
    }
    if !are_within(points) {
        return Err(Status::OutOfRange);
    }
    if locations.len() < points.len() / 2 {
        return Err(Status::TooSmall);
    }
    Ok(())
}

// Writes the number of each point's location into the first places.
fn write_locations<I: OverlayInt, E: EdgeForm<I, ShapeCountBoolean>, B: FormOf<Block<I>>>(
    alloc: Global,
    shape: &HeldShape<E, B>,
    points: &[I],
    locations: &mut [u8],
)
    requires asked { CanBeAsked I.limit (parts_of I.whole E.meant B.meant shape.now) }
    requires points { ArePoints I.whole I.limit points.now }
    requires room { HaveRoom points.now locations.old }
    ensures { AreLocatedIn I.whole (shape_of (parts_of I.whole E.meant B.meant shape.now)) points.now locations.old
        locations.new }
{
    let rule = known_fill(shape.fill);
    let blocked = BlockedEdges {
        edges: shape.edges,
        blocks: shape.blocks,
        groups: shape.groups,
    };
    let mut told = Vec::new(alloc);
    for at in 0..points.len() / 2 {
        let place = 2 * at;
        let next = place + 1;
        let x = points[place];
        let y = points[next];
        let p = IntPoint { x, y };
        told = told_from(alloc, told, shape.edges, points, place);
        let location = locate_told(&blocked, rule, &told, at % TOGETHER, p);
        locations[at] = number_of(location);
    }
}

// Returns what the edges tell of the points whose coordinates begin at the place, where all before were asked; else
// what is told already. Where asking together does not pay (`pays`), or memory is refused, nothing is told.
fn told_from<I: OverlayInt, E: EdgeForm<I, ShapeCountBoolean>>(
    alloc: Global,
    told: Vec<Query<I, ShapeCountBoolean>, Global>,
    edges: &[E],
    points: &[I],
    place: usize,
) -> Vec<Query<I, ShapeCountBoolean>, Global>
    requires content { IsContent I.limit (plain_edges I.whole boolean_counts (map E.meant edges.now)) }
    requires told { All (λ q. IsTold (plain_edges I.whole boolean_counts (map E.meant edges.now))
        (plain_query I.whole boolean_counts q)) told.items }
    ensures { All (λ q. IsTold (plain_edges I.whole boolean_counts (map E.meant edges.now))
        (plain_query I.whole boolean_counts q)) result.items }
{
    if place % (2 * TOGETHER) != 0 {
        return told;
    }
    let Some(rest) = points.get(place..) else {
        return Vec::new(alloc);
    };
    if !pays(edges.len(), rest.len() / 2) {
        return Vec::new(alloc);
    }
    match told_of_first(alloc, edges, rest) {
        Ok(told) => told,
        Err(_) => Vec::new(alloc),
    }
}

// Returns what the edges tell of the first points.
fn told_of_first<I: OverlayInt, E: EdgeForm<I, ShapeCountBoolean>>(
    alloc: Global,
    edges: &[E],
    points: &[I],
) -> Result<Vec<Query<I, ShapeCountBoolean>, Global>, AllocError>
    requires { IsContent I.limit (plain_edges I.whole boolean_counts (map E.meant edges.now)) }
    ensures { IfOk result (λ v. All (λ q. IsTold (plain_edges I.whole boolean_counts (map E.meant edges.now))
        (plain_query I.whole boolean_counts q)) v.items) }
{
    let first = first_points(alloc, points)?;
    told_of(alloc, edges, &first)
}

// Returns the first points of the coordinates, each x followed by its y. No proof rests on these: what is told of a
// point answers for that point alone.
fn first_points<I: OverlayInt>(
    alloc: Global,
    coordinates: &[I],
) -> Result<Vec<IntPoint<I>, Global>, AllocError> {
    let mut points = Vec::new(alloc);
    let mut before = None;
    for coordinate in coordinates {
        if points.len() == TOGETHER {
            return Ok(points);
        }
        match before {
            None => before = Some(*coordinate),
            Some(x) => {
                points.push(IntPoint { x, y: *coordinate })?;
                before = None;
            }
        }
    }
    Ok(points)
}

// Returns the fill rule with the number, which is known.
fn known_fill(number: u32) -> FillRule
    requires { number < 4 }
    ensures { result ≡ fill_of number }
{
    match number {
        0 => FillRule::EvenOdd,
        1 => FillRule::NonZero,
        2 => FillRule::Positive,
        _ => FillRule::Negative,
    }
}

// Returns the number that C knows the location by.
fn number_of(location: PointLocation) -> u8
    ensures { result ≡ number_of location }
{
    match location {
        PointLocation::Outside => 0,
        PointLocation::Inside => 1,
        PointLocation::Boundary => 2,
    }
}
