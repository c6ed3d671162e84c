//! Fans: edges that share an end, and the range of their directions.

ghost use Rattle.std.specs.Prelude.{◌≡◌, ◌+◌, ◌/◌, ◌<◌, true, List, All, length, IsTrue, IfOk, IfSome};
ghost use Rattle.std.specs.List.Sorted.{IsPermutation};
ghost use Rattle.overlay_geom.specs.Edges.{CountedEdge as WholeEdge};
ghost use Rattle.overlay_geom.specs.Points.{plain_point};
ghost use Rattle.overlay_order.specs.Content.{plain_edge, plain_edges, IsHeld};
ghost use Rattle.overlay_pairs.specs.Bundles.{plain_fan, plain_fans, AreFansOf, AreHeldFans, ArePassed, BeginsFan};
ghost use Rattle.overlay_pairs.specs.Bundles.{EndsIn, HoldsRound, IsBesideFan, IsFanRound, IsFanWidened, IsHeldFan};
ghost use Rattle.overlay_pairs.specs.Bundles.{IsInFan, IsTurnedAside};
ghost use Rattle.overlay_pairs.specs.Extents.{Extent as WholeExtent, extents_of, plain_extents};

use crate::bundles::is_left_of_parallel;
use crate::extents::Extent;
use overlay_geom::edge::IntEdge;
use overlay_geom::edge_pair::is_same;
use overlay_geom::number::IntNumber;
use overlay_geom::point::IntPoint;
use overlay_order::count::EdgeCount;
use overlay_order::edge::CountedEdge;
use std::alloc::{AllocError, Allocator};

// Fans serve where more than one in this many bundles of 8 edges share an end.
const BUNDLES_PER_FAN: usize = 4;

/// Which ends of the first of some edges all of them share, and the range of their directions if they share one.
#[derive(Clone, Copy)]
pub struct Fan<I> {
    /// Whether each edge has an end in the start of the first.
    pub is_at_a: bool,
    /// Whether each edge has an end in the end of the first.
    pub is_at_b: bool,
    /// The edge whose direction is farthest to the right.
    pub lowest: IntEdge<I>,
    /// The edge whose direction is farthest to the left.
    pub highest: IntEdge<I>,
    /// The first of the edges.
    pub along: IntEdge<I>,
}

/// The fans of each 8, 64, 512, 4096 and 32768 edges. A fan of n begins at each multiple of n.
#[derive(Drop)]
pub struct Fans<I: Copy, A: Allocator> {
    /// The fans of each 8 edges.
    pub of_8: Vec<Fan<I>, A>,
    /// The fans of each 64 edges.
    pub of_64: Vec<Fan<I>, A>,
    /// The fans of each 512 edges.
    pub of_512: Vec<Fan<I>, A>,
    /// The fans of each 4096 edges.
    pub of_4096: Vec<Fan<I>, A>,
    /// The fans of each 32768 edges.
    pub of_32768: Vec<Fan<I>, A>,
}

/// Makes the fans of the edges, unless few of each 8 edges share an end.
pub(crate) fn fans_of<I: IntNumber, C: EdgeCount, A: Allocator + Clone>(
    alloc: A,
    edges: &[CountedEdge<I, C>],
    boxes: &[Extent<I>],
) -> Result<Option<Fans<I, A>>, AllocError>
    requires held { All (IsHeld I.limit) (plain_edges I.whole C.counts edges.now) }
    requires boxes { IsPermutation
        (extents_of (plain_edges I.whole C.counts edges.now)) (plain_extents I.whole boxes.now) }
    ensures ok { IfOk result (λ made. IfSome made (AreFansOf I.whole I.limit
        (plain_edges I.whole C.counts edges.now) (plain_extents I.whole boxes.now))) }
{
    let of_8 = fans_of_size(alloc.clone()?, edges, boxes, 8)?;
    if count_shared(&of_8) <= of_8.len() / BUNDLES_PER_FAN {
        return Ok(None);
    }
    let of_64 = fans_of_size(alloc.clone()?, edges, boxes, 64)?;
    let of_512 = fans_of_size(alloc.clone()?, edges, boxes, 512)?;
    let of_4096 = fans_of_size(alloc.clone()?, edges, boxes, 4096)?;
    let of_32768 = fans_of_size(alloc, edges, boxes, 32768)?;
    Ok(Some(Fans {
        of_8,
        of_64,
        of_512,
        of_4096,
        of_32768,
    }))
}

/// Returns how many of the fans have edges that share an end.
fn count_shared<I: IntNumber>(fans: &[Fan<I>]) -> usize {
    let mut count: usize = 0;
    for fan in fans {
        if fan.is_at_a || fan.is_at_b {
            count = count.saturating_add(1);
        }
    }
    count
}

/// Returns the fan of the edges of each `size` boxes.
fn fans_of_size<I: IntNumber, C: EdgeCount, A: Allocator>(
    alloc: A,
    edges: &[CountedEdge<I, C>],
    boxes: &[Extent<I>],
    size: usize,
) -> Result<Vec<Fan<I>, A>, AllocError>
    requires some { 0 < size }
    requires held { All (IsHeld I.limit) (plain_edges I.whole C.counts edges.now) }
    requires boxes { IsPermutation
        (extents_of (plain_edges I.whole C.counts edges.now)) (plain_extents I.whole boxes.now) }
    ensures ok { IfOk result (λ fans. AreHeldFans I.limit size (plain_edges I.whole C.counts edges.now)
        (plain_extents I.whole boxes.now) (plain_fans I.whole fans.items)) }
{
    let mut fans = Vec::new(alloc);
    for (k, extent) in boxes.iter().enumerate() {
        let e = &edges[extent.first];
        if k % size == 0 {
            fans.push(fan_of(e))?;
        } else {
            let last = k / size;
            fans[last] = fan_with(fans[last], e);
        }
    }
    Ok(fans)
}

/// Returns the fan of an edge.
fn fan_of<I: IntNumber, C: EdgeCount>(e: &CountedEdge<I, C>) -> Fan<I>
    requires one { IsHeld I.limit (plain_edge I.whole C.counts e.now) }
    ensures held { IsHeldFan I.limit (plain_fan I.whole result) }
    ensures holds { HoldsRound (plain_fan I.whole result) (plain_edge I.whole C.counts e.now) }
{
    Fan {
        is_at_a: true,
        is_at_b: true,
        lowest: IntEdge { a: e.a, b: e.b },
        highest: IntEdge { a: e.a, b: e.b },
        along: IntEdge { a: e.a, b: e.b },
    }
}

/// Returns the fan with one edge more.
fn fan_with<I: IntNumber, C: EdgeCount>(fan: Fan<I>, e: &CountedEdge<I, C>) -> Fan<I>
    requires held { IsHeldFan I.limit (plain_fan I.whole fan) }
    requires one { IsHeld I.limit (plain_edge I.whole C.counts e.now) }
    ensures held { IsHeldFan I.limit (plain_fan I.whole result) }
    ensures holds { HoldsRound (plain_fan I.whole result) (plain_edge I.whole C.counts e.now) }
    ensures widened { IsFanWidened (plain_fan I.whole fan) (plain_fan I.whole result) }
{
    if fan.is_at_a || fan.is_at_b {
        fan_round(&fan, e)
    } else {
        fan
    }
}

/// Returns the fan of edges that share an end, with one edge more.
fn fan_round<I: IntNumber, C: EdgeCount>(fan: &Fan<I>, e: &CountedEdge<I, C>) -> Fan<I>
    requires held { IsHeldFan I.limit (plain_fan I.whole fan.now) }
    requires one { IsHeld I.limit (plain_edge I.whole C.counts e.now) }
    ensures held { IsHeldFan I.limit (plain_fan I.whole result) }
    ensures holds { HoldsRound (plain_fan I.whole result) (plain_edge I.whole C.counts e.now) }
    ensures keeps { IsFanWidened (plain_fan I.whole fan.now) (plain_fan I.whole result) }
{
    let is_at_a = stays_at(fan.is_at_a, e, fan.along.a);
    let is_at_b = stays_at(fan.is_at_b, e, fan.along.b);
    let turned = turned_to(fan, e);
    Fan {
        is_at_a,
        is_at_b,
        lowest: turned.lowest,
        highest: turned.highest,
        along: fan.along,
    }
}

/// Returns the fan with its range of directions widened, if need be, by that of e.
fn turned_to<I: IntNumber, C: EdgeCount>(fan: &Fan<I>, e: &CountedEdge<I, C>) -> Fan<I>
    requires held { IsHeldFan I.limit (plain_fan I.whole fan.now) }
    requires one { IsHeld I.limit (plain_edge I.whole C.counts e.now) }
    ensures held { IsHeldFan I.limit (plain_fan I.whole result) }
    ensures inside { IsInFan (plain_fan I.whole result) (plain_edge I.whole C.counts e.now) }
    ensures keeps { (f : _) → IsInFan (plain_fan I.whole fan.now) f → IsInFan (plain_fan I.whole result) f }
{
    let is_lower = is_left_of_parallel(IntEdge { a: e.a, b: e.b }, fan.lowest.a, fan.lowest.b);
    let is_higher = is_left_of_parallel(fan.highest, e.a, e.b);
    Fan {
        lowest: if is_lower {
            IntEdge { a: e.a, b: e.b }
        } else {
            fan.lowest
        },
        highest: if is_higher {
            IntEdge { a: e.a, b: e.b }
        } else {
            fan.highest
        },
        is_at_a: fan.is_at_a,
        is_at_b: fan.is_at_b,
        along: fan.along,
    }
}

/// Returns how many boxes from `at` on can be skipped, since they are those of a fan beside e. Fans of 64 and more
/// begin at few places alone.
#[inline(never)]
pub(crate) fn count_round<I: IntNumber, C: EdgeCount, A: Allocator>(
    fans: &Fans<I, A>,
    e: &CountedEdge<I, C>,
    at: usize,
) -> usize
    requires fans { (es : List WholeEdge) × (ss : List WholeExtent) × AreFansOf I.whole I.limit es ss fans.now
        × (at < length ss) }
    requires one { IsHeld I.limit (plain_edge I.whole C.counts e.now) }
    ensures { (es : List WholeEdge) (ss : List WholeExtent) (s : WholeExtent)
        → AreFansOf I.whole I.limit es ss fans.now
        → ArePassed es (plain_edge I.whole C.counts e.now) ss s at (at + result) }
{
    if at % 64 == 0 {
        count_round_by_sizes(fans, e, at)
    } else if begins_fan(&fans.of_8, 8, e, at) {
        8
    } else {
        0
    }
}

/// Returns how many boxes from `at` on can be skipped, as `count_round` does, by fans of all sizes.
fn count_round_by_sizes<I: IntNumber, C: EdgeCount, A: Allocator>(
    fans: &Fans<I, A>,
    e: &CountedEdge<I, C>,
    at: usize,
) -> usize
    requires fans { (es : List WholeEdge) × (ss : List WholeExtent) × AreFansOf I.whole I.limit es ss fans.now
        × (at < length ss) }
    requires one { IsHeld I.limit (plain_edge I.whole C.counts e.now) }
    ensures { (es : List WholeEdge) (ss : List WholeExtent) (s : WholeExtent)
        → AreFansOf I.whole I.limit es ss fans.now
        → ArePassed es (plain_edge I.whole C.counts e.now) ss s at (at + result) }
{
    if begins_fan(&fans.of_32768, 32768, e, at) {
        32768
    } else if begins_fan(&fans.of_4096, 4096, e, at) {
        4096
    } else if begins_fan(&fans.of_512, 512, e, at) {
        512
    } else if begins_fan(&fans.of_64, 64, e, at) {
        64
    } else if begins_fan(&fans.of_8, 8, e, at) {
        8
    } else {
        0
    }
}

/// Returns whether a fan of `size` edges begins at the place and lies beside e.
fn begins_fan<I: IntNumber, C: EdgeCount>(
    fans: &[Fan<I>],
    size: usize,
    e: &CountedEdge<I, C>,
    at: usize,
) -> bool
    requires some { 0 < size }
    requires within { at / size < length fans.now }
    requires held { All (IsHeldFan I.limit) (plain_fans I.whole fans.now) }
    requires one { IsHeld I.limit (plain_edge I.whole C.counts e.now) }
    ensures { IsTrue result → BeginsFan (plain_fans I.whole fans.now) size (plain_edge I.whole C.counts e.now) at }
{
    at % size == 0 && is_beside_fan(&fans[at / size], e)
}

/// Returns whether e shares an end with the edges of the fan, and has a direction out of their range.
fn is_beside_fan<I: IntNumber, C: EdgeCount>(fan: &Fan<I>, e: &CountedEdge<I, C>) -> bool
    requires held { IsHeldFan I.limit (plain_fan I.whole fan.now) }
    requires one { IsHeld I.limit (plain_edge I.whole C.counts e.now) }
    ensures { IsTrue result → IsBesideFan (plain_fan I.whole fan.now) (plain_edge I.whole C.counts e.now) }
{
    shares_corner(fan, e) && is_turned_aside(fan, e)
}

/// Returns whether e shares an end with all edges of the fan.
fn shares_corner<I: IntNumber, C: EdgeCount>(fan: &Fan<I>, e: &CountedEdge<I, C>) -> bool
    ensures { IsTrue result → (c : _) × IsFanRound (plain_fan I.whole fan.now) c
        × EndsIn (plain_edge I.whole C.counts e.now) c }
{
    stays_at(fan.is_at_a, e, fan.along.a) || stays_at(fan.is_at_b, e, fan.along.b)
}

/// Returns whether the direction of e is out of the fan's range.
fn is_turned_aside<I: IntNumber, C: EdgeCount>(fan: &Fan<I>, e: &CountedEdge<I, C>) -> bool
    requires held { IsHeldFan I.limit (plain_fan I.whole fan.now) }
    requires one { IsHeld I.limit (plain_edge I.whole C.counts e.now) }
    ensures { IsTrue result → IsTurnedAside (plain_fan I.whole fan.now) (plain_edge I.whole C.counts e.now) }
{
    is_left_of_parallel(IntEdge { a: e.a, b: e.b }, fan.lowest.a, fan.lowest.b)
        || is_left_of_parallel(fan.highest, e.a, e.b)
}

/// Returns whether other edges end in the point, and e too.
fn stays_at<I: IntNumber, C: EdgeCount>(is_at: bool, e: &CountedEdge<I, C>, v: IntPoint<I>) -> bool
    ensures before { IsTrue result → is_at ≡ true }
    ensures ends { IsTrue result → EndsIn (plain_edge I.whole C.counts e.now) (plain_point I.whole v) }
{
    is_at && (is_same(e.a, v) || is_same(e.b, v))
}
