//! Parts of edges on one line: each edge is parted at the ends of the others, and equal parts become one.

ghost use Rattle.std.specs.Prelude.{◌≡◌, ◌+◌, ◌^◌, ◌<◌, ◌++◌, ℕ, cond, drop, length, map, slice_index_or};
ghost use Rattle.std.specs.Prelude.{All, IfOk, OnOk};
ghost use Rattle.overlay_geom.specs.Counts.{weight_of_counts};
ghost use Rattle.overlay_geom.specs.Edges.{weight};
ghost use Rattle.overlay_geom.specs.Placed.{IsAlong};
ghost use Rattle.overlay_geom.specs.Plane.{point_lt, Edge};
ghost use Rattle.overlay_geom.specs.Points.{plain_point};
ghost use Rattle.overlay_order.specs.Content.{carried_edge, carried_edges, plain_edges, IsHeld};
ghost use Rattle.overlay_parts.specs.LineParts.{parts_behind, AreOnLine, ArePartsOn, AreToJoin, IsFrontOf};
ghost use Rattle.overlay_parts.specs.Parts.{ends_of_part, first_of, last_of, lone_part, part_behind, part_between};
ghost use Rattle.overlay_parts.specs.Parts.{plain_part, plain_parts};
ghost use Rattle.overlay_parts.specs.Parts.{AreParted, IsFirstPart, IsHeldPart, IsJoinedPart};
ghost use Rattle.overlay_parts.specs.Stores.{IsStoreReached};
ghost use Rattle.overlay_parts.specs.declared.parts.Part.{Part as HeldPart};

use overlay_geom::edge::is_before;
use overlay_geom::number::IntNumber;
use overlay_geom::point::IntPoint;
use overlay_order::count::EdgeCount;
use overlay_order::edge::CountedEdge;
use std::alloc::{AllocError, Allocator};

/// A part of some edges on one line.
#[derive(Clone, Copy)]
pub struct Part<I, C> {
    /// The part, with the merged value of its edges.
    pub edge: CountedEdge<I, C>,
    /// The weight of its edges, all together.
    pub cover: u32,
}

/// Returns the parts of edges on one line, in their order along it.
pub(crate) fn parts_of<I: IntNumber, C: EdgeCount, A: Allocator + Clone>(
    alloc: A,
    edges: &[CountedEdge<I, C>],
    store: &mut C::Store,
) -> Result<Vec<Part<I, C>, A>, AllocError>
    requires held { All (IsHeld I.limit) (plain_edges I.whole C.counts edges.now) }
    requires light { weight (plain_edges I.whole C.counts edges.now) < 2 ^ 31 }
    requires line { (line : Edge) × AreOnLine line (plain_edges I.whole C.counts edges.now) }
    ensures parted { IfOk result (λ parts. AreParted C.merges
        (map lone_part (carried_edges I.whole C.counts edges.now)) (plain_parts I.whole C.counts parts.items)) }
    ensures on { IfOk result (λ parts. (line : Edge) → AreOnLine line (plain_edges I.whole C.counts edges.now)
        → ArePartsOn I.limit (weight (plain_edges I.whole C.counts edges.now)) line
        (plain_parts I.whole C.counts parts.items)) }
    ensures store { IsStoreReached C.writes store.old store.new }
{
    if edges.len() < 2 {
        return lone_parts(alloc, edges);
    }
    let halves = edges.split_at(edges.len() / 2);
    let low = parts_of(alloc.clone()?, halves.0, store)?;
    let high = parts_of(alloc.clone()?, halves.1, store)?;
    joined_parts(alloc, &low, &high, store)
}

/// Returns each edge as a part.
fn lone_parts<I: IntNumber, C: EdgeCount, A: Allocator>(
    alloc: A,
    edges: &[CountedEdge<I, C>],
) -> Result<Vec<Part<I, C>, A>, AllocError>
    requires { weight (plain_edges I.whole C.counts edges.now) < 2 ^ 31 }
    ensures ok { IfOk result (λ parts. plain_parts I.whole C.counts parts.items
        ≡ map lone_part (carried_edges I.whole C.counts edges.now)) }
{
    let mut parts = Vec::with_capacity(alloc, edges.len())?;
    for i in 0..edges.len() {
        parts.push(lone_part(&edges[i]))?;
    }
    Ok(parts)
}

/// Returns the edge as a part.
pub(crate) fn lone_part<I: IntNumber, C: EdgeCount>(e: &CountedEdge<I, C>) -> Part<I, C>
    requires { weight_of_counts (C.counts e.now.count) < 2 ^ 31 }
    ensures { plain_part I.whole C.counts result ≡ lone_part (carried_edge I.whole C.counts e.now) }
{
    Part {
        edge: *e,
        cover: e.count.weight(),
    }
}

/// Returns the parts of two lists of parts on one line. Both are in their order along it, and so are the new parts.
/// Neither is empty.
fn joined_parts<I: IntNumber, C: EdgeCount, A: Allocator>(
    alloc: A,
    low: &[Part<I, C>],
    high: &[Part<I, C>],
    store: &mut C::Store,
) -> Result<Vec<Part<I, C>, A>, AllocError>
    requires low { 0 < length low.now }
    requires high { 0 < length high.now }
    requires line { (line : Edge) × (m : ℕ) × (k : ℕ) × AreToJoin I.limit m k line
        (plain_parts I.whole C.counts low.now) (plain_parts I.whole C.counts high.now) }
    ensures parted { IfOk result (λ parts. AreParted C.merges
        (plain_parts I.whole C.counts low.now ++ plain_parts I.whole C.counts high.now)
        (plain_parts I.whole C.counts parts.items)) }
    ensures on { IfOk result (λ parts. (line : Edge) (m k : ℕ) → AreToJoin I.limit m k line
        (plain_parts I.whole C.counts low.now) (plain_parts I.whole C.counts high.now)
        → ArePartsOn I.limit (m + k) line (plain_parts I.whole C.counts parts.items)) }
    ensures store { IsStoreReached C.writes store.old store.new }
{
    let mut parts = Vec::with_capacity(alloc, low.len().saturating_add(high.len()))?;
    // (the parts up to this point are done)
    let mut done = first_of(low[0].edge.a, high[0].edge.a);
    let mut i = 0;
    let mut j = 0;
    while i < low.len() && j < high.len() {
        let first = first_behind(&low[i], &high[j], &done, store);
        i = place_behind(low, i, &first);
        j = place_behind(high, j, &first);
        done = end_of(&first);
        parts.push(first)?;
    }
    push_rest(&mut parts, low, i, &done)?;
    push_rest(&mut parts, high, j, &done)?;
    Ok(parts)
}

/// Adds the parts from the place i on, as far as they lie behind a point.
fn push_rest<I: IntNumber, C: EdgeCount, A: Allocator>(
    parts: &mut Vec<Part<I, C>, A>,
    more: &[Part<I, C>],
    i: usize,
    done: &IntPoint<I>,
) -> Result<(), AllocError>
    ensures { OnOk result (plain_parts I.whole C.counts parts.new.items
        ≡ plain_parts I.whole C.counts parts.old.items
        ++ parts_behind (plain_point I.whole done.now) (plain_parts I.whole C.counts (drop i more.now))) }
{
    for k in i..more.len() {
        parts.push(part_from(&more[k], done))?;
    }
    Ok(())
}

/// Returns the place of the first part from i on that goes on behind another part. All but the part at i do.
fn place_behind<I: IntNumber, C: EdgeCount>(
    parts: &[Part<I, C>],
    i: usize,
    done: &Part<I, C>,
) -> usize
    requires { i < length parts.now }
    ensures { (d : HeldPart I C) → result
        ≡ cond (point_lt (ends_of_part (plain_part I.whole C.counts done.now)).b
        (ends_of_part (plain_part I.whole C.counts (slice_index_or parts.now i d))).b) i (i + 1) }
{
    if is_before(done.edge.b, parts[i].edge.b) {
        i
    } else {
        i + 1
    }
}

/// Returns the part, from a point on if that lies inside it.
fn part_from<I: IntNumber, C: EdgeCount>(part: &Part<I, C>, done: &IntPoint<I>) -> Part<I, C>
    ensures { plain_part I.whole C.counts result
        ≡ part_behind (plain_part I.whole C.counts part.now) (plain_point I.whole done.now) }
{
    part_between(part, last_of(part.edge.a, *done), part.edge.b)
}

/// Returns the first part of two parts on one line that go on behind a point, from there on, up to the next end of
/// either.
fn first_behind<I: IntNumber, C: EdgeCount>(
    s: &Part<I, C>,
    t: &Part<I, C>,
    done: &IntPoint<I>,
    store: &mut C::Store,
) -> Part<I, C>
    requires one { IsHeldPart I.limit (part_behind (plain_part I.whole C.counts s.now)
        (plain_point I.whole done.now)) }
    requires other { IsHeldPart I.limit (part_behind (plain_part I.whole C.counts t.now)
        (plain_point I.whole done.now)) }
    requires light { s.now.cover + t.now.cover < 2 ^ 31 }
    requires along { let v = plain_point I.whole done.now in
        IsAlong (ends_of_part (part_behind (plain_part I.whole C.counts s.now) v))
        (ends_of_part (part_behind (plain_part I.whole C.counts t.now) v)) }
    ensures parted { let v = plain_point I.whole done.now in
        IsFirstPart C.merges (part_behind (plain_part I.whole C.counts s.now) v)
        (part_behind (plain_part I.whole C.counts t.now) v) (plain_part I.whole C.counts result) }
    ensures front { let v = plain_point I.whole done.now in
        IsFrontOf (part_behind (plain_part I.whole C.counts s.now) v)
        (part_behind (plain_part I.whole C.counts t.now) v) (plain_part I.whole C.counts result) }
    ensures store { IsStoreReached C.writes store.old store.new }
{
    let s = part_from(s, done);
    let t = part_from(t, done);
    first_part(&s, &t, store)
}

/// Returns the first part of two parts on one line, up to the next end of either.
fn first_part<I: IntNumber, C: EdgeCount>(
    s: &Part<I, C>,
    t: &Part<I, C>,
    store: &mut C::Store,
) -> Part<I, C>
    requires one { IsHeldPart I.limit (plain_part I.whole C.counts s.now) }
    requires other { IsHeldPart I.limit (plain_part I.whole C.counts t.now) }
    requires light { s.now.cover + t.now.cover < 2 ^ 31 }
    requires along { IsAlong (ends_of_part (plain_part I.whole C.counts s.now))
        (ends_of_part (plain_part I.whole C.counts t.now)) }
    ensures parted { IsFirstPart C.merges (plain_part I.whole C.counts s.now) (plain_part I.whole C.counts t.now)
        (plain_part I.whole C.counts result) }
    ensures front { IsFrontOf (plain_part I.whole C.counts s.now) (plain_part I.whole C.counts t.now)
        (plain_part I.whole C.counts result) }
    ensures store { IsStoreReached C.writes store.old store.new }
{
    if is_before(s.edge.a, t.edge.a) {
        start_of(s, t)
    } else if is_before(t.edge.a, s.edge.a) {
        start_of(t, s)
    } else {
        start_of_both(s, t, store)
    }
}

/// Returns the part s up to its end or to the start of t, whichever comes first. It starts before t, on the same line.
fn start_of<I: IntNumber, C: EdgeCount>(s: &Part<I, C>, t: &Part<I, C>) -> Part<I, C>
    ensures { let whole = plain_part I.whole C.counts s.now in
        plain_part I.whole C.counts result ≡ part_between whole (ends_of_part whole).a
        (first_of (ends_of_part whole).b (ends_of_part (plain_part I.whole C.counts t.now)).a) }
{
    part_between(s, s.edge.a, first_of(s.edge.b, t.edge.a))
}

/// Returns two parts that start in one point as one, up to the end that comes first.
pub(crate) fn start_of_both<I: IntNumber, C: EdgeCount>(
    s: &Part<I, C>,
    t: &Part<I, C>,
    store: &mut C::Store,
) -> Part<I, C>
    requires one { IsHeldPart I.limit (plain_part I.whole C.counts s.now) }
    requires other { IsHeldPart I.limit (plain_part I.whole C.counts t.now) }
    requires light { s.now.cover + t.now.cover < 2 ^ 31 }
    requires same { plain_point I.whole s.now.edge.a ≡ plain_point I.whole t.now.edge.a }
    ensures joined { let one = plain_part I.whole C.counts s.now in
        let other = plain_part I.whole C.counts t.now in
        let end = first_of (ends_of_part one).b (ends_of_part other).b in
        IsJoinedPart C.merges (part_between one (ends_of_part one).a end)
        (part_between other (ends_of_part other).a end) (plain_part I.whole C.counts result) }
    ensures writes { C.writes store.old store.new }
{
    let end = first_of(s.edge.b, t.edge.b);
    let edge = CountedEdge {
        a: s.edge.a,
        b: end,
        count: s.edge.count.merged(t.edge.count, store),
    };
    Part {
        edge,
        cover: s.cover + t.cover,
    }
}

/// Returns the larger end of the part.
fn end_of<I: IntNumber, C: EdgeCount>(part: &Part<I, C>) -> IntPoint<I>
    ensures { plain_point I.whole result ≡ (ends_of_part (plain_part I.whole C.counts part.now)).b }
{
    part.edge.b
}

/// Returns the part between two points of it.
fn part_between<I: IntNumber, C: EdgeCount>(
    part: &Part<I, C>,
    v: IntPoint<I>,
    w: IntPoint<I>,
) -> Part<I, C>
    ensures { plain_part I.whole C.counts result ≡ part_between (plain_part I.whole C.counts part.now)
        (plain_point I.whole v) (plain_point I.whole w) }
{
    let edge = CountedEdge {
        a: v,
        b: w,
        count: part.edge.count,
    };
    Part {
        edge,
        cover: part.cover,
    }
}

/// Returns the smaller one of two points.
fn first_of<I: IntNumber>(v: IntPoint<I>, w: IntPoint<I>) -> IntPoint<I>
    ensures { plain_point I.whole result ≡ first_of (plain_point I.whole v) (plain_point I.whole w) }
{
    if is_before(w, v) { w } else { v }
}

/// Returns the larger one of two points.
fn last_of<I: IntNumber>(v: IntPoint<I>, w: IntPoint<I>) -> IntPoint<I>
    ensures { plain_point I.whole result ≡ last_of (plain_point I.whole v) (plain_point I.whole w) }
{
    if is_before(v, w) { w } else { v }
}
