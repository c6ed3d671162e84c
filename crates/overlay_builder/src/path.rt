//! Paths as counted edges: one edge for each step from a point to the next.

ghost use Rattle.std.specs.Prelude.{◌≡◌, ◌↔◌, ◌^◌, ◌≤◌, ◌⊎◌, ◌++◌, [], ◌∷◌, map, take, length, cond, false};
ghost use Rattle.std.specs.Prelude.{IfOk, IfErr, OnOk, OnErr, IsErrOf, option_map, option_to_list};
ghost use Rattle.overlay_geom.specs.Edges.{weight};
ghost use Rattle.overlay_geom.specs.Plane.{steps_between, steps_through};
ghost use Rattle.overlay_geom.specs.Points.{plain_point, plain_points, InRange, AllInRange};
ghost use Rattle.overlay_order.specs.Content.{carried_edge, IsContent};
ghost use Rattle.overlay_plane.specs.Carried.{edges_in};
ghost use Rattle.overlay_builder.specs.Paths.{passed_edge, path_steps_of, AreLight};
ghost use Rattle.overlay_builder.specs.Paths.{IsTakenAs, AddsPath, contour_kind};
ghost use Rattle.overlay_builder.specs.PathLists.{carried_weight, path_as, WouldWeighTooMuch};

use overlay_arrange::content::Content;
use overlay_geom::error::OverlayError;
use overlay_geom::number::IntNumber;
use overlay_geom::point::IntPoint;
use overlay_geom::thin::thinned;
use overlay_order::count::EdgeCount;
use overlay_order::edge::{CountedEdge, compare_points};
use std::alloc::Allocator;
use std::cmp::Ordering;

/// Way in which the points of a path are taken.
#[derive(Debug, Clone, Copy, PartialEq)]
pub enum PathKind {
    /// All points; no step leads from the last point to the first.
    Open,
    /// All points; a step leads from the last point to the first.
    Closed,
    /// The points without those collinear with their two neighbours; a step leads from the last point to the first.
    Thinned,
}

/// The counts that a step adds to its edge.
#[derive(Clone, Copy)]
pub struct StepCounts<C> {
    /// The counts where the step runs from the edge's smaller to its larger end.
    pub along: C,
    /// The counts where the step runs back.
    pub back: C,
}

// Returns the counted edge of the step between two points, if they differ.
fn step_edge<I: IntNumber, C: EdgeCount>(
    from: IntPoint<I>,
    to: IntPoint<I>,
    passing: StepCounts<C>,
) -> Option<CountedEdge<I, C>>
    ensures { option_to_list (option_map (carried_edge I.whole C.counts) result)
        ≡ map (passed_edge C.counts passing) (steps_between (plain_point I.whole from) (plain_point I.whole to)) }
{
    match compare_points(from, to) {
        Ordering::Equal => None,
        Ordering::Less => Some(CountedEdge {
            a: from,
            b: to,
            count: passing.along,
        }),
        Ordering::Greater => Some(CountedEdge {
            a: to,
            b: from,
            count: passing.back,
        }),
    }
}

// Adds the edge of the step between two points, if they differ.
fn push_step<I: IntNumber, C: EdgeCount, A: Allocator>(
    content: &mut Content<I, C, A>,
    from: IntPoint<I>,
    to: IntPoint<I>,
    passing: StepCounts<C>,
) -> Result<(), OverlayError>
    requires light { AreLight C.counts passing }
    requires from { InRange I.limit (plain_point I.whole from) }
    requires to { InRange I.limit (plain_point I.whole to) }
    ensures ok { OnOk result (content.new ≡ content.old ++ map (passed_edge C.counts passing)
        (steps_between (plain_point I.whole from) (plain_point I.whole to))) }
    ensures err { OnErr result (content.new ≡ content.old) }
    ensures limits { IsContent I.limit (edges_in content.old) → IsContent I.limit (edges_in content.new) }
    ensures too_many { IsErrOf result OverlayError.TooManyEdges
        → 2 ^ 31 ≤ weight (edges_in (content.old ++ map (passed_edge C.counts passing)
        (steps_between (plain_point I.whole from) (plain_point I.whole to)))) }
    ensures only { IfErr result (λ e. (e ≡ OverlayError.Memory) ⊎ (e ≡ OverlayError.TooManyEdges)) }
{
    if let Some(edge) = step_edge(from, to, passing) {
        content.push(edge)?;
    }
    Ok(())
}

// Adds the edges of the steps from a point through a list of points, and of the step back to it if `is_closed`. On a
// refusal some of them may stay.
fn push_through<I: IntNumber, C: EdgeCount, A: Allocator>(
    content: &mut Content<I, C, A>,
    first: IntPoint<I>,
    points: &[IntPoint<I>],
    is_closed: bool,
    passing: StepCounts<C>,
) -> Result<(), OverlayError>
    requires light { AreLight C.counts passing }
    requires first { InRange I.limit (plain_point I.whole first) }
    requires points { AllInRange I.limit (plain_points I.whole points.now) }
    ensures ok { let start = plain_point I.whole first in
        OnOk result (content.new ≡ content.old ++ map (passed_edge C.counts passing)
        (steps_through start (plain_points I.whole points.now ++ cond is_closed (start ∷ []) []))) }
    ensures front { take (length content.old) content.new ≡ content.old }
    ensures limits { IsContent I.limit (edges_in content.old) → IsContent I.limit (edges_in content.new) }
    ensures too_many { let start = plain_point I.whole first in
        IsErrOf result OverlayError.TooManyEdges → 2 ^ 31
        ≤ weight (edges_in (content.old ++ map (passed_edge C.counts passing)
        (steps_through start (plain_points I.whole points.now ++ cond is_closed (start ∷ []) [])))) }
    ensures only { IfErr result (λ e. (e ≡ OverlayError.Memory) ⊎ (e ≡ OverlayError.TooManyEdges)) }
{
    let mut from = first;
    for to in points {
        push_step(content, from, *to, passing)?;
        from = *to;
    }
    if is_closed {
        push_step(content, from, first, passing)?;
    }
    Ok(())
}

// Adds the edges of a path's steps, or none of them on a refusal.
fn push_path<I: IntNumber, C: EdgeCount, A: Allocator>(
    content: &mut Content<I, C, A>,
    points: &[IntPoint<I>],
    is_closed: bool,
    passing: StepCounts<C>,
) -> Result<(), OverlayError>
    requires light { AreLight C.counts passing }
    requires points { AllInRange I.limit (plain_points I.whole points.now) }
    ensures ok { OnOk result (content.new ≡ content.old ++ map (passed_edge C.counts passing)
        (path_steps_of is_closed (plain_points I.whole points.now))) }
    ensures err { OnErr result (content.new ≡ content.old) }
    ensures limits { IsContent I.limit (edges_in content.old) → IsContent I.limit (edges_in content.new) }
    ensures too_many { IsErrOf result OverlayError.TooManyEdges → 2 ^ 31
        ≤ weight (edges_in (content.old ++ map (passed_edge C.counts passing)
        (path_steps_of is_closed (plain_points I.whole points.now)))) }
    ensures only { IfErr result (λ e. (e ≡ OverlayError.Memory) ⊎ (e ≡ OverlayError.TooManyEdges)) }
{
    let Some(first) = points.first() else {
        return Ok(());
    };
    let held = content.len();
    let pushed = push_through(content, *first, points, is_closed, passing);
    if pushed.is_err() {
        content.truncate(held);
    }
    pushed
}

/// Adds the edges of a path's steps to the content: an edge for each step between two different points, with its counts
/// in `passing`. Returns whether a point of the path was left out, which happens only to a thinned path. The points are
/// in the coordinate range, and a step weighs less than 2^31.
///
/// Refusals leave the content as it was: `TooManyEdges` where its weight would reach 2^31, and `Memory`.
pub fn add_path<I: IntNumber, C: EdgeCount, A: Allocator + Clone>(
    content: &mut Content<I, C, A>,
    points: &[IntPoint<I>],
    kind: PathKind,
    passing: StepCounts<C>,
) -> Result<bool, OverlayError>
    requires light { AreLight C.counts passing }
    requires points { AllInRange I.limit (plain_points I.whole points.now) }
    ensures ok { OnOk result (AddsPath kind (passed_edge C.counts passing)
        (plain_points I.whole points.now) content.old content.new) }
    ensures left_out { IfOk result (λ leaves_out. (leaves_out ≡ false)
        ↔ IsTakenAs kind (plain_points I.whole points.now) (plain_points I.whole points.now)) }
    ensures err { OnErr result (content.new ≡ content.old) }
    ensures limits { IsContent I.limit (edges_in content.old) → IsContent I.limit (edges_in content.new) }
    ensures too_many { IsErrOf result OverlayError.TooManyEdges → WouldWeighTooMuch carried_weight
        (path_as kind (passed_edge C.counts passing) (plain_points I.whole points.now)) content.old }
    ensures only { IfErr result (λ e. (e ≡ OverlayError.Memory) ⊎ (e ≡ OverlayError.TooManyEdges)) }
{
    match kind {
        PathKind::Open => add_given(content, points, false, passing),
        PathKind::Closed => add_given(content, points, true, passing),
        PathKind::Thinned => add_thinned(content, points, passing),
    }
}

// Adds the edges of a path's steps, and leaves no point out.
fn add_given<I: IntNumber, C: EdgeCount, A: Allocator>(
    content: &mut Content<I, C, A>,
    points: &[IntPoint<I>],
    is_closed: bool,
    passing: StepCounts<C>,
) -> Result<bool, OverlayError>
    requires light { AreLight C.counts passing }
    requires points { AllInRange I.limit (plain_points I.whole points.now) }
    ensures ok { OnOk result (content.new ≡ content.old ++ map (passed_edge C.counts passing)
        (path_steps_of is_closed (plain_points I.whole points.now))) }
    ensures none { IfOk result (λ leaves_out. leaves_out ≡ false) }
    ensures err { OnErr result (content.new ≡ content.old) }
    ensures limits { IsContent I.limit (edges_in content.old) → IsContent I.limit (edges_in content.new) }
    ensures too_many { IsErrOf result OverlayError.TooManyEdges → 2 ^ 31
        ≤ weight (edges_in (content.old ++ map (passed_edge C.counts passing)
        (path_steps_of is_closed (plain_points I.whole points.now)))) }
    ensures only { IfErr result (λ e. (e ≡ OverlayError.Memory) ⊎ (e ≡ OverlayError.TooManyEdges)) }
{
    push_path(content, points, is_closed, passing)?;
    Ok(false)
}

// Adds the edges of a thinned contour's steps, and returns whether thinning left points out.
fn add_thinned<I: IntNumber, C: EdgeCount, A: Allocator + Clone>(
    content: &mut Content<I, C, A>,
    points: &[IntPoint<I>],
    passing: StepCounts<C>,
) -> Result<bool, OverlayError>
    requires light { AreLight C.counts passing }
    requires points { AllInRange I.limit (plain_points I.whole points.now) }
    ensures ok { OnOk result (AddsPath PathKind.Thinned (passed_edge C.counts passing)
        (plain_points I.whole points.now) content.old content.new) }
    ensures left_out { IfOk result (λ leaves_out. (leaves_out ≡ false)
        ↔ IsTakenAs PathKind.Thinned (plain_points I.whole points.now) (plain_points I.whole points.now)) }
    ensures err { OnErr result (content.new ≡ content.old) }
    ensures limits { IsContent I.limit (edges_in content.old) → IsContent I.limit (edges_in content.new) }
    ensures too_many { IsErrOf result OverlayError.TooManyEdges → WouldWeighTooMuch carried_weight
        (path_as PathKind.Thinned (passed_edge C.counts passing) (plain_points I.whole points.now)) content.old }
    ensures only { IfErr result (λ e. (e ≡ OverlayError.Memory) ⊎ (e ≡ OverlayError.TooManyEdges)) }
{
    let bent = thinned(content.allocator().clone()?, points)?;
    push_path(content, &bent, true, passing)?;
    Ok(bent.len() < points.len())
}

/// Returns the way in which a contour is taken: with all points where they are kept, else thinned.
pub fn contour_kind(keeps_points: bool) -> PathKind
    ensures { result ≡ contour_kind keeps_points }
{
    if keeps_points {
        PathKind::Closed
    } else {
        PathKind::Thinned
    }
}
