//! The sweep over the edges of a contour that tells where points lie.

ghost use Rattle.std.specs.Prelude.{◌≡◌, ◌+◌, ◌<◌, ◌≤◌, ◌<ℤ◌, ◌≤ℤ◌, false, length, drop, slice_index_or, All};
ghost use Rattle.std.specs.Prelude.{pos, Some, IfOk, OnOk};
ghost use Rattle.overlay_geom.specs.Plane.{in_plane};
ghost use Rattle.overlay_geom.specs.Lines.{plain_line};
ghost use Rattle.overlay_geom.specs.Points.{plain_point, plain_points, InRange, AllInRange};
ghost use Rattle.overlay_geom.specs.Resolved.{plain_edge, plain_edges, IsLongEdge};
ghost use Rattle.overlay_relate.specs.Answers.{AnswersWhere};
ghost use Rattle.overlay_relate.specs.Locations.{IsLocatedBy};
ghost use Rattle.overlay_relate.specs.Sweeps.{wide_edges, side_answer};
ghost use Rattle.overlay_relate.specs.Sweeps.{AreByStart, AreOfContour, AreTold, IsSwept};
ghost use Rattle.overlay_relate.specs.Sweeps.{AreSweepable, IsFound};
ghost use Rattle.overlay_relate.specs.Walls.{AreWalls, AreContourWalls};
ghost use Rattle.overlay_scan.specs.Scan.{empty_sweep, live_at, moved_to, value_up_to};
ghost use Rattle.overlay_scan.specs.Scan.{IsSweep, MayMoveTo, AnswersRise};

use crate::location::PointLocation;
use crate::queries::queries_by_x;
use crate::starts::edges_by_start;
use crate::walls::{is_on_wall, walls_of};
use crate::wide_edge::WideEdge;
use overlay_geom::edge::IntEdge;
use overlay_geom::number::{IntNumber, WideIntNumber};
use overlay_geom::path::IntLine;
use overlay_geom::point::IntPoint;
use overlay_geom::vector::cross_at;
use overlay_scan::scan::Scan;
use std::alloc::{AllocError, Allocator};
use std::cmp::Ordering;

/// Returns where each point lies by the edges of a resolved contour, in their order. The scan is empty at first; what
/// it holds afterwards is left open.
pub(crate) fn locate_by_sweep<I: IntNumber, A: Allocator + Clone, S: Scan<I, usize>>(
    alloc: A,
    scan: &mut S,
    edges: &[IntEdge<I>],
    points: &[IntPoint<I>],
) -> Result<Vec<PointLocation, A>, AllocError>
    requires edges { All (IsLongEdge I.limit) (plain_edges I.whole edges.now) }
    requires contour { AreOfContour (plain_edges I.whole edges.now) }
    requires points { AllInRange I.limit (plain_points I.whole points.now) }
    requires empty { S.content scan.old ≡ empty_sweep }
    ensures located { IfOk result (λ v. AnswersWhere (IsLocatedBy (plain_edges I.whole edges.now))
        (plain_points I.whole points.now) v.items) }
{
    let starting = edges_by_start(alloc.clone()?, edges)?;
    let walls = walls_of(alloc.clone()?, edges)?;
    let queries = queries_by_x(alloc.clone()?, points)?;
    let mut inside = Vec::new(alloc.clone()?);
    let mut answers = Vec::new(alloc);
    answers.resize(points.len(), PointLocation::Outside)?;
    for query in &queries {
        put_up_to(scan, &starting, &mut inside, query.point.x)?;
        let highest = highest_up_to(scan, query.point, starting.len());
        answers[query.place] = location(&starting, &inside, &walls, query.point, highest);
    }
    Ok(answers)
}

/// Puts in the next edges, up to those that start at x, and tells of each whether it is inside above it.
fn put_up_to<I: IntNumber, A: Allocator, S: Scan<I, usize>>(
    scan: &mut S,
    edges: &[WideEdge<I>],
    inside: &mut Vec<bool, A>,
    x: I,
) -> Result<(), AllocError>
    requires edges { AreSweepable (wide_edges I.whole edges.now) }
    requires within { length inside.old.items ≤ length edges.now }
    requires moves { MayMoveTo (I.whole x) (S.content scan.old) }
    requires swept { IsSwept I.limit (wide_edges I.whole edges.now) (length inside.old.items) (S.content scan.old) }
    ensures within { OnOk result (length inside.new.items ≤ length edges.now) }
    ensures moves { OnOk result (MayMoveTo (I.whole x) (S.content scan.new)) }
    ensures swept { OnOk result (IsSwept I.limit (wide_edges I.whole edges.now) (length inside.new.items)
        (S.content scan.new)) }
    ensures rest { OnOk result (All (λ e. I.whole x <ℤ e.a.x)
        (drop (length inside.new.items) (wide_edges I.whole edges.now))) }
    ensures told { OnOk result ((es : _) → AreOfContour es → AreByStart es (wide_edges I.whole edges.now)
        → AreTold es (wide_edges I.whole edges.now) inside.old.items
        → AreTold es (wide_edges I.whole edges.now) inside.new.items) }
{
    for i in inside.len()..edges.len() {
        let e = &edges[i];
        if x.compare(e.a.x).is_lt() {
            return Ok(());
        }
        put_next(scan, edges, inside)?;
    }
    Ok(())
}

/// Puts in the next edge: it is inside above it where it is not inside above the highest one under it.
fn put_next<I: IntNumber, A: Allocator, S: Scan<I, usize>>(
    scan: &mut S,
    edges: &[WideEdge<I>],
    inside: &mut Vec<bool, A>,
) -> Result<(), AllocError>
    requires edges { AreSweepable (wide_edges I.whole edges.now) }
    requires within { length inside.old.items < length edges.now }
    requires swept { IsSwept I.limit (wide_edges I.whole edges.now) (length inside.old.items) (S.content scan.old) }
    ensures counted { OnOk result (length inside.new.items ≡ length inside.old.items + 1) }
    ensures swept { OnOk result (IsSwept I.limit (wide_edges I.whole edges.now) (length inside.new.items)
        (S.content scan.new)) }
    ensures reached { OnOk result ((e : _) → slice_index_or (wide_edges I.whole edges.now)
        (length inside.old.items) e ≡ e
        → (S.content scan.new).reached ≡ Some e.a.x) }
    ensures told { OnOk result ((es : _) → AreOfContour es → AreByStart es (wide_edges I.whole edges.now)
        → AreTold es (wide_edges I.whole edges.now) inside.old.items
        → AreTold es (wide_edges I.whole edges.now) inside.new.items) }
{
    let place = inside.len();
    let e = &edges[place];
    let below = scan.first_less(e.a.x, place, [e.a, e.b]);
    let is_inside = !is_told(inside, below);
    let Ok(()) = scan.insert([e.a, e.b], place, e.a.x) else {
        return Err(AllocError);
    };
    inside.push(is_inside)?;
    Ok(())
}

/// Returns whether it is told of the place that it is inside there.
fn is_told(inside: &[bool], place: usize) -> bool
    ensures { result ≡ slice_index_or inside.now place false }
{
    place < inside.len() && inside[place]
}

/// The value of the highest edge of the scan that is not above the point, or `none` where there is none.
fn highest_up_to<I: IntNumber, S: Scan<I, usize>>(
    scan: &mut S,
    p: IntPoint<I>,
    none: usize,
) -> usize
    requires point { InRange I.limit (plain_point I.whole p) }
    requires state { IsSweep I.limit (S.content scan.old) }
    requires moves { MayMoveTo (I.whole p.x) (S.content scan.old) }
    ensures value { AnswersRise (side_answer (plain_point I.whole p))
        (live_at (I.whole p.x) (S.content scan.old).entries)
        → result ≡ value_up_to none (side_answer (plain_point I.whole p))
        (live_at (I.whole p.x) (S.content scan.old).entries) }
    ensures content { S.content scan.new ≡ moved_to (I.whole p.x) (S.content scan.old) }
    ensures state { IsSweep I.limit (S.content scan.new) }
{
    scan.first_less_or_equal_by(
        p.x,
        none,
        |line: IntLine<I>| -> Ordering
            requires a { InRange I.limit (plain_line I.whole line).a }
            requires b { InRange I.limit (plain_line I.whole line).b }
            requires p { InRange I.limit (plain_point I.whole p) }
            ensures { result ≡ side_answer (plain_point I.whole p) (plain_line I.whole line) }
        { side_of(line, p) },
    )
}

/// `Less` where the line is below the point, `Equal` where the point is on it, else `Greater`.
fn side_of<I: IntNumber>(line: IntLine<I>, p: IntPoint<I>) -> Ordering
    requires a { InRange I.limit (plain_line I.whole line).a }
    requires b { InRange I.limit (plain_line I.whole line).b }
    requires p { InRange I.limit (plain_point I.whole p) }
    ensures { result ≡ side_answer (plain_point I.whole p) (plain_line I.whole line) }
{
    let e = edge_at(line);
    cross_at(e.b, e.a, p).sign()
}

/// The edge between a line's two ends.
fn edge_at<I: IntNumber>(line: IntLine<I>) -> IntEdge<I>
    ensures { plain_edge I.whole result ≡ plain_line I.whole line }
{
    let [a, b] = line;
    IntEdge { a, b }
}

/// Where a point lies, by the walls and by the highest edge that is not above it.
fn location<I: IntNumber>(
    edges: &[WideEdge<I>],
    inside: &[bool],
    walls: &[IntEdge<I>],
    p: IntPoint<I>,
    highest: usize,
) -> PointLocation
    requires point { InRange I.limit (plain_point I.whole p) }
    requires within { length inside.now ≤ length edges.now }
    requires walls { AreContourWalls (plain_edges I.whole walls.now) }
    requires found { IsFound (wide_edges I.whole edges.now) (plain_point I.whole p) (length inside.now) highest }
    ensures { (es : _) → All (IsLongEdge I.limit) es → AreOfContour es → AreByStart es (wide_edges I.whole edges.now)
        → AreTold es (wide_edges I.whole edges.now) inside.now → AreWalls es (plain_edges I.whole walls.now)
        → IsLocatedBy es (in_plane (plain_point I.whole p)) result }
{
    if is_on_wall(walls, p) {
        return PointLocation::Boundary;
    }
    if highest >= inside.len() {
        return PointLocation::Outside;
    }
    let e = &edges[highest];
    if cross_at(e.a, e.b, p).sign().is_eq() {
        PointLocation::Boundary
    } else if inside[highest] {
        PointLocation::Inside
    } else {
        PointLocation::Outside
    }
}
