//! The filled sides of all pieces of merged edges, found by a walk along each edge from meeting point to meeting point.

ghost use Rattle.std.specs.Prelude.{◌+◌, ◌*◌, ◌^◌, ◌<◌, length, All, IfOk, OnOk};
ghost use Rattle.overlay_geom.specs.Edges.{ends_of, subj_of, clip_of, winding_by};
ghost use Rattle.overlay_geom.specs.Plane.{in_plane};
ghost use Rattle.overlay_geom.specs.Rules.{is_filled};
ghost use Rattle.overlay_plane.specs.Balance.{HasBalancedCounts};
ghost use Rattle.overlay_order.specs.Content.{plain_edge, plain_edges, IsHeld, IsAscending};
ghost use Rattle.overlay_pairs.specs.Places.{IsAt};
ghost use Rattle.overlay_exact.specs.AllMet.{AreMetByStarts, AreMetOf};
ghost use Rattle.overlay_exact.specs.Along.{plain_mets};
ghost use Rattle.overlay_exact.specs.Groups.{AreInOrderAlongOne};
ghost use Rattle.overlay_given.specs.Beside.{IsNear};
ghost use Rattle.overlay_given.specs.Places.{AddsTimes, AddsPlaces, ArePlacesBy};
ghost use Rattle.overlay_given.specs.Walk.{AddsSides, AreSidesOf, IsFirstEnd, WindsAtStart, WindsFromStart};

use crate::beside::Beside;
use crate::sides::{FilledSides, SidesAtPlace};
use crate::start::windings_at_start;
use crate::steps::{Stop, sum_met};
use overlay_exact::exact_int::ExactInt;
use overlay_exact::group::group_end;
use overlay_exact::meetings::Meetings;
use overlay_exact::met::MetAlong;
use overlay_exact::point_windings::live_at_start;
use overlay_geom::fill_rule::FillRule;
use overlay_geom::number::IntNumber;
use overlay_order::count::EdgeCount;
use overlay_order::edge::CountedEdge;
use std::alloc::{AllocError, Allocator};

/// The filled sides of all pieces of a list of edges.
#[derive(Drop)]
pub struct PieceSides<A: Allocator> {
    /// Those of the pieces of the first edge, then of the next, and so on; of one edge in their order along it.
    pub pieces: Vec<FilledSides, A>,
    /// For each meeting point of an edge, in the order of these, those of the pieces that end there.
    pub places: Vec<SidesAtPlace, A>,
}

/// Returns the sides that the shapes fill beside the pieces of the edges. `found` holds the edges' meeting points.
pub fn find_sides<I: ExactInt, C: EdgeCount, A: Allocator + Clone>(
    alloc: A,
    edges: &[CountedEdge<I, C>],
    found: &Meetings<I::Wide, A>,
    rule: FillRule,
) -> Result<PieceSides<A>, AllocError>
    requires held { All (IsHeld I.limit) (plain_edges I.whole C.counts edges.now) }
    requires ascending { IsAscending (plain_edges I.whole C.counts edges.now) }
    requires balanced { HasBalancedCounts (plain_edges I.whole C.counts edges.now) }
    requires found { AreMetByStarts (plain_edges I.whole C.counts edges.now) (length edges.now)
        found.now.starts.items (plain_mets I.Wide.whole found.now.met.items) }
    ensures pieces { IfOk result (λ v.
        AreSidesOf (is_filled rule) (plain_edges I.whole C.counts edges.now) (length edges.now) v.pieces.items) }
    ensures places { IfOk result (λ v. ArePlacesBy (is_filled rule) (plain_edges I.whole C.counts edges.now)
        (length edges.now) found.now.starts.items (plain_mets I.Wide.whole found.now.met.items) v.places.items) }
{
    let mut pieces = Vec::new(alloc.clone()?);
    let mut places = Vec::new(alloc.clone()?);
    let mut live = Vec::new(alloc);
    let mut begun = 0;
    for i in 0..edges.len() {
        begun = live_at_start(&mut live, edges, begun, i)?;
        let start = windings_at_start(&live, &edges[i]);
        let met = &found.met[found.starts[i]..found.starts[i + 1]];
        push_sides(&mut pieces, &mut places, edges, i, start, met, rule)?;
    }
    Ok(PieceSides { pieces, places })
}

// Adds the filled sides of the pieces of the edge at place i, in their order along it, and those at its meeting points.
// The windings at its start are given.
pub(crate) fn push_sides<I: ExactInt, C: EdgeCount, A: Allocator>(
    pieces: &mut Vec<FilledSides, A>,
    places: &mut Vec<SidesAtPlace, A>,
    edges: &[CountedEdge<I, C>],
    i: usize,
    start: Beside,
    met: &[MetAlong<I::Wide>],
    rule: FillRule,
) -> Result<(), AllocError>
    requires held { All (IsHeld I.limit) (plain_edges I.whole C.counts edges.now) }
    requires ascending { IsAscending (plain_edges I.whole C.counts edges.now) }
    requires balanced { HasBalancedCounts (plain_edges I.whole C.counts edges.now) }
    requires within { i < length edges.now }
    requires start { (e : _) → IsAt (plain_edges I.whole C.counts edges.now) i e
        → WindsAtStart (plain_edges I.whole C.counts edges.now) e start }
    requires near { IsNear (2 ^ 97) start }
    requires met { (e : _) → IsAt (plain_edges I.whole C.counts edges.now) i e
        → AreMetOf (plain_edges I.whole C.counts edges.now) i e (plain_mets I.Wide.whole met.now) }
    ensures pieces { OnOk result ((e : _) → IsAt (plain_edges I.whole C.counts edges.now) i e
        → AddsSides (is_filled rule) (plain_edges I.whole C.counts edges.now) e pieces.old.items pieces.new.items) }
    ensures places { OnOk result ((e : _) → IsAt (plain_edges I.whole C.counts edges.now) i e
        → AddsPlaces (is_filled rule) (plain_edges I.whole C.counts edges.now) e (plain_mets I.Wide.whole met.now)
        places.old.items places.new.items) }
{
    let mut from = first_end::<I>(met);
    let mut beside = beside_first_piece(edges, &edges[i], start, &met[..from]);
    let first = beside.filled(rule);
    pieces.push(first)?;
    push_places(places, from, first, first)?;
    while from < met.len() && !met[from].part.is_end() {
        let end = group_end::<I>(met, from);
        let before = beside.filled(rule);
        beside = beside.plus(sum_met(Stop::Later, edges, &edges[i], &met[from..end]));
        let after = beside.filled(rule);
        pieces.push(after)?;
        push_places(places, end - from, before, after)?;
        from = end;
    }
    let last = beside.filled(rule);
    push_places(places, met.len() - from, last, last)?;
    Ok(())
}

// Adds the sides at one place for each of its `count` meeting points.
fn push_places<A: Allocator>(
    places: &mut Vec<SidesAtPlace, A>,
    count: usize,
    before: FilledSides,
    after: FilledSides,
) -> Result<(), AllocError>
    ensures { OnOk result (AddsTimes count (record { before = before; after = after }) places.old.items
        places.new.items) }
{
    let mut n = 0;
    while n < count {
        places.push(SidesAtPlace { before, after })?;
        n += 1;
    }
    Ok(())
}

// Returns the number of meeting points at the start of the edge.
fn first_end<I: ExactInt>(met: &[MetAlong<I::Wide>]) -> usize
    requires { AreInOrderAlongOne (plain_mets I.Wide.whole met.now) }
    ensures { IsFirstEnd (plain_mets I.Wide.whole met.now) result }
{
    if !met.is_empty() && met[0].part.is_start() {
        group_end::<I>(met, 0)
    } else {
        0
    }
}

// Returns the windings beside the first piece of the edge. Those at its start are given, and the points met there.
fn beside_first_piece<I: IntNumber, C: EdgeCount>(
    edges: &[CountedEdge<I, C>],
    edge: &CountedEdge<I, C>,
    start: Beside,
    met: &[MetAlong<I::Wide>],
) -> Beside
    requires held { All (IsHeld I.limit) (plain_edges I.whole C.counts edges.now) }
    requires edge { IsHeld I.limit (plain_edge I.whole C.counts edge.now) }
    requires start { WindsAtStart (plain_edges I.whole C.counts edges.now)
        (plain_edge I.whole C.counts edge.now) start }
    requires near { IsNear (2 ^ 97) start }
    requires others { All (λ m. m.other < length edges.now) (plain_mets I.Wide.whole met.now) }
    ensures sums { WindsFromStart (plain_edges I.whole C.counts edges.now) (plain_edge I.whole C.counts edge.now)
        (plain_mets I.Wide.whole met.now) result }
    ensures near { IsNear (2 ^ 97 + length met.now * 2 ^ 32) result }
{
    start.plus(sum_met(Stop::First, edges, edge, met))
}
