//! The filled sides of an edge, by a ray straight down from its midpoint that counts the edges below.

ghost use Rattle.std.specs.Prelude.{◌≡◌, ◌&&◌, pos, ◌*ℤ◌, int_lt, int_le, map, IfOk};
ghost use Rattle.overlay_geom.specs.Plane.{midpoint, side, is_strictly_below};
ghost use Rattle.overlay_geom.specs.Edges.{ends_of, subj_of, clip_of, winding_below};
ghost use Rattle.overlay_geom.specs.Rules.{fill_bits};
ghost use Rattle.overlay_order.specs.Content.{plain_edge, plain_edges, IsHeld, IsContent};

use crate::windings::{Windings, bits_between};
use overlay_geom::fill_rule::FillRule;
use overlay_geom::number::{IntNumber, WideIntNumber};
use overlay_geom::vector::cross_at;
use overlay_order::count::EdgeCount;
use overlay_order::edge::CountedEdge;
use overlay_order::vector::SideFill;
use std::alloc::{AllocError, Allocator};

/// Returns the filled sides of every edge, in the order of the edges, with balanced counts or not.
pub(crate) fn fills_by_rays<I: IntNumber, C: EdgeCount, A: Allocator>(
    alloc: A,
    edges: &[CountedEdge<I, C>],
    rule: FillRule,
) -> Result<Vec<SideFill, A>, AllocError>
    requires content { IsContent I.limit (plain_edges I.whole C.counts edges.now) }
    ensures ok { let es = plain_edges I.whole C.counts edges.now in
        IfOk result (λ v. v.items ≡ map (fill_bits rule es) es) }
{
    let mut fills = Vec::with_capacity(alloc, edges.len())?;
    for edge in edges {
        fills.push(fill_of(edges, edge, rule))?;
    }
    Ok(fills)
}

/// Returns whether the midpoint of the edge f is in the span of the edge e without its right end.
fn is_middle_in_span<I: IntNumber, C: EdgeCount>(
    e: &CountedEdge<I, C>,
    f: &CountedEdge<I, C>,
) -> bool
    requires e { IsHeld I.limit (plain_edge I.whole C.counts e.now) }
    requires f { IsHeld I.limit (plain_edge I.whole C.counts f.now) }
    ensures { let middle = midpoint (ends_of (plain_edge I.whole C.counts f.now)) in
        let d = middle.d in
        result ≡ (int_le (I.whole e.now.a.x *ℤ d) middle.x && int_lt middle.x (I.whole e.now.b.x *ℤ d)) }
{
    let middle = f.a.x.plus(f.b.x);
    let from = e.a.x.plus(e.a.x).compare(middle);
    let to = middle.compare(e.b.x.plus(e.b.x));
    from.is_le() && to.is_lt()
}

/// Returns whether the midpoint of the edge f lies strictly to the left of the edge e.
fn is_middle_left<I: IntNumber, C: EdgeCount>(e: &CountedEdge<I, C>, f: &CountedEdge<I, C>) -> bool
    requires e { IsHeld I.limit (plain_edge I.whole C.counts e.now) }
    requires f { IsHeld I.limit (plain_edge I.whole C.counts f.now) }
    ensures { let middle = midpoint (ends_of (plain_edge I.whole C.counts f.now)) in
        result ≡ int_lt (pos 0) (side (ends_of (plain_edge I.whole C.counts e.now)) middle) }
{
    // The midpoint's side is the sum of the two products, which may be too large.
    let first = cross_at(e.a, e.b, f.a);
    let second = cross_at(e.a, e.b, f.b);
    first.compare(second.negate()).is_gt()
}

/// Returns whether the edge e lies strictly below the midpoint of the edge f.
fn is_below_middle<I: IntNumber, C: EdgeCount>(e: &CountedEdge<I, C>, f: &CountedEdge<I, C>) -> bool
    requires e { IsHeld I.limit (plain_edge I.whole C.counts e.now) }
    requires f { IsHeld I.limit (plain_edge I.whole C.counts f.now) }
    ensures { let middle = midpoint (ends_of (plain_edge I.whole C.counts f.now)) in
        result ≡ is_strictly_below (ends_of (plain_edge I.whole C.counts e.now)) middle }
{
    is_middle_in_span(e, f) && is_middle_left(e, f)
}

/// Returns the windings just below the midpoint of the edge.
fn windings_below<I: IntNumber, C: EdgeCount>(
    edges: &[CountedEdge<I, C>],
    edge: &CountedEdge<I, C>,
) -> Windings
    requires content { IsContent I.limit (plain_edges I.whole C.counts edges.now) }
    requires held { IsHeld I.limit (plain_edge I.whole C.counts edge.now) }
    ensures subj { let e = plain_edge I.whole C.counts edge.now in
        result.subj ≡ winding_below subj_of (plain_edges I.whole C.counts edges.now) e }
    ensures clip { let e = plain_edge I.whole C.counts edge.now in
        result.clip ≡ winding_below clip_of (plain_edges I.whole C.counts edges.now) e }
{
    let mut windings = Windings { subj: 0, clip: 0 };
    for e in edges {
        if is_below_middle(e, edge) {
            windings = windings.beyond(e);
        }
    }
    windings
}

/// Returns the filled sides of the edge among the edges of the list.
pub(crate) fn fill_of<I: IntNumber, C: EdgeCount>(
    edges: &[CountedEdge<I, C>],
    edge: &CountedEdge<I, C>,
    rule: FillRule,
) -> SideFill
    requires content { IsContent I.limit (plain_edges I.whole C.counts edges.now) }
    requires held { IsHeld I.limit (plain_edge I.whole C.counts edge.now) }
    ensures { let e = plain_edge I.whole C.counts edge.now in
        result ≡ fill_bits rule (plain_edges I.whole C.counts edges.now) e }
{
    let below = windings_below(edges, edge);
    let above = below.beyond(edge);
    bits_between(below, above, rule)
}
