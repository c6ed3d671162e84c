//! The sweep over walks that finds the shapes of walks whose shape is not yet known.

ghost use Rattle.std.specs.Prelude.{◌≡◌, ◌≤◌, length, map, take, drop, slice_index_or, None};
ghost use Rattle.std.specs.Prelude.{◌<ℤ◌, false, cond, nat_lt, All, AllPairs, IfOk};
ghost use Rattle.std.specs.Option.{is_some};
ghost use Rattle.overlay_geom.specs.Plane.{edge_of, edge_eq};
ghost use Rattle.overlay_geom.specs.Settled.{IsSettledBy};
ghost use Rattle.overlay_plane.specs.Anchors.{HasEachEdgeOnce};
ghost use Rattle.overlay_plane.specs.Binding.{all_filled_above};
ghost use Rattle.overlay_plane.specs.Contours.{IsContour, all_steps};
ghost use Rattle.overlay_scan.specs.Scan.{empty_sweep, live_at, moved_to, value_below};
ghost use Rattle.overlay_scan.specs.Scan.{IsAsked, IsSweep, MayMoveTo, MeetsOthers};
ghost use Rattle.overlay_scan.specs.Sweeps.{IsByStart};
ghost use Rattle.overlay_walk.specs.GroupedContours.{walk_of};
ghost use Rattle.overlay_extract.specs.Parents.{IsSwept, HasShapeNumber};
ghost use Rattle.overlay_walk.specs.Steps.{filled_hand, IsLong};
ghost use Rattle.overlay_walk.specs.WalkEdges.{numbered_entry, numbered_entries};

use crate::binding::anchor::hole_anchors;
use crate::binding::filled_above_edges::filled_above_edges;
use overlay_geom::number::IntNumber;
use overlay_geom::options::ContourDirection;
use overlay_scan::scan::Scan;
use overlay_walk::contour::Contour;
use overlay_walk::numbered_edge::NumberedEdge;
use std::alloc::{AllocError, Allocator};

/// Returns for each walk whose shape is not known (`known` has None there) the number of the shape found for it by its
/// next filled-above edge, if there is one. That is the number that is known of, or found for, the walk with that edge.
/// The entries of other walks are left open. The scan is empty at first; its content afterwards is left open.
///
/// In the contours' direction holes find their parents. In the other direction, with the holes' places as known, an
/// island finds the hole round it.
pub(crate) fn parents_by_sweep<I: IntNumber, A: Allocator + Clone, S: Scan<I, usize>>(
    alloc: A,
    scan: &mut S,
    contours: &[Contour<I, A>],
    known: &[Option<usize>],
    direction: ContourDirection,
) -> Result<Vec<Option<usize>, A>, AllocError>
    requires long { All (All (IsLong I.limit)) (map (walk_of I.whole) contours.now) }
    requires contours { All IsContour (map (walk_of I.whole) contours.now) }
    requires single { All HasEachEdgeOnce (map (walk_of I.whole) contours.now) }
    requires distinct { AllPairs (λ e f. edge_eq e f ≡ false)
        (all_filled_above (filled_hand direction) (map (walk_of I.whole) contours.now)) }
    requires settled { IsSettledBy edge_of (all_steps (map (walk_of I.whole) contours.now)) }
    requires known { length known.now ≡ length contours.now }
    requires empty { S.content scan.old ≡ empty_sweep }
    ensures counted { IfOk result (λ v. length v.items ≡ length contours.now) }
    ensures numbers { IfOk result (λ v. (n : _) → HasShapeNumber (filled_hand direction)
        (map (walk_of I.whole) contours.now) known.now v.items n) }
{
    let anchors = hole_anchors(alloc.clone()?, contours, known)?;
    let mut parents = Vec::new(alloc.clone()?);
    parents.resize(contours.len(), None)?;
    if anchors.is_empty() {
        return Ok(parents);
    }
    let edges = filled_above_edges(alloc, contours, direction)?;
    let mut from = 0;
    for hole in &anchors {
        from = insert_up_to(scan, &edges, from, hole.a.x)?;
        let below = walk_below(scan, hole, contours.len());
        parents[hole.number] = shape_at(known, &parents, below);
    }
    Ok(parents)
}

/// Inserts the edges over x from an index on, each with its walk's index, and returns the index of the first edge that
/// starts to the right of x.
fn insert_up_to<I: IntNumber, S: Scan<I, usize>>(
    scan: &mut S,
    edges: &[NumberedEdge<I>],
    from: usize,
    x: I,
) -> Result<usize, AllocError>
    requires from { from ≤ length edges.now }
    requires order { IsByStart (numbered_entries I.whole edges.now) }
    requires distinct { AllPairs (λ f g. edge_eq f.edge g.edge ≡ false) (numbered_entries I.whole edges.now) }
    requires settled { IsSettledBy (λ f. f.edge) (numbered_entries I.whole edges.now) }
    requires swept { IsSwept I.limit (I.whole x) (take from (numbered_entries I.whole edges.now)) (S.content scan.old) }
    ensures within { IfOk result (λ n. n ≤ length edges.now) }
    ensures swept { IfOk result (λ n. IsSwept I.limit (I.whole x) (take n (numbered_entries I.whole edges.now))
        (S.content scan.new)) }
    ensures rest { IfOk result (λ n. All (λ f. I.whole x <ℤ f.edge.a.x) (drop n (numbered_entries I.whole edges.now))) }
{
    for i in from..edges.len() {
        let e = &edges[i];
        if x.compare(e.a.x).is_lt() {
            return Ok(i);
        }
        if x.compare(e.b.x).is_lt() {
            let Ok(()) = scan.insert([e.a, e.b], e.number, x) else {
                return Err(AllocError);
            };
        }
    }
    Ok(edges.len())
}

/// Returns the index of the walk with the highest edge of the scan below an anchor, or `none` if there is no edge.
fn walk_below<I: IntNumber, S: Scan<I, usize>>(
    scan: &mut S,
    anchor: &NumberedEdge<I>,
    none: usize,
) -> usize
    requires state { IsSweep I.limit (S.content scan.old) }
    requires moves { MayMoveTo (I.whole anchor.now.a.x) (S.content scan.old) }
    requires asked { IsAsked I.limit (I.whole anchor.now.a.x) (numbered_entry I.whole anchor.now).edge }
    requires meets { MeetsOthers (numbered_entry I.whole anchor.now).edge
        (live_at (I.whole anchor.now.a.x) (S.content scan.old).entries) }
    ensures value { result ≡ value_below none (numbered_entry I.whole anchor.now).edge
        (live_at (I.whole anchor.now.a.x) (S.content scan.old).entries) }
    ensures content { S.content scan.new ≡ moved_to (I.whole anchor.now.a.x) (S.content scan.old) }
    ensures state { IsSweep I.limit (S.content scan.new) }
{
    scan.first_less(anchor.a.x, none, [anchor.a, anchor.b])
}

/// Returns the number of the walk's shape: an outline's own number, or the number of a hole's parent. It is None past
/// the walks.
fn shape_at(numbers: &[Option<usize>], parents: &[Option<usize>], walk: usize) -> Option<usize>
    requires { length parents.now ≡ length numbers.now }
    ensures { result ≡ cond (nat_lt walk (length numbers.now))
        (cond (is_some (slice_index_or numbers.now walk None)) (slice_index_or numbers.now walk None)
        (slice_index_or parents.now walk None)) None }
{
    if walk < numbers.len() {
        match numbers[walk] {
            Some(n) => Some(n),
            None => parents[walk],
        }
    } else {
        None
    }
}
