//! A sample of edges, which tells whether bundles serve the search for the edges that an edge may meet.

ghost use Rattle.std.specs.Prelude.{◌<◌, All, length};
ghost use Rattle.overlay_order.specs.Content.{plain_edge, plain_edges, IsAscending, IsHeld};
ghost use Rattle.overlay_pairs.specs.Strips.{AreHeldStripsOf};

use crate::near::find_by_strips;
use crate::settle::meet_in_ends;
use crate::strips::Strips;
use overlay_geom::edge_pair::is_same;
use overlay_geom::number::IntNumber;
use overlay_order::count::EdgeCount;
use overlay_order::edge::CountedEdge;
use std::alloc::{AllocError, Allocator};

// Number of edges from which on bundles may be made, of edges in a sample, and of those that are many for such an edge.
const LEAST_EDGES: usize = 480;

const SAMPLE_SIZE: usize = 16;

const MANY_FOUND: usize = 128;
// The edges of a sample lie 1 more than a multiple of this apart. So edges of all kinds are in it where each few edges
// repeat the kinds.
const KINDS_PERIOD: usize = 30;

/// Whether bundles serve a search, alone or with fans.
#[derive(Clone, Copy)]
pub(crate) struct Sample {
    /// Whether a quarter of the edges of the sample, or more, find many edges by their boxes and meet few of them.
    pub(crate) misses_many: bool,
    /// Whether they would do so if edges that share an end with them did not count as met.
    pub(crate) shares_many: bool,
}

/// Searches for the edges that those of a sample may meet. It only serves as an estimate. Short lists are not tried.
pub(crate) fn sample_of<I: IntNumber, C: EdgeCount, A: Allocator>(
    alloc: A,
    edges: &[CountedEdge<I, C>],
    strips: &Strips<I, A>,
) -> Result<Sample, AllocError>
    requires held { All (IsHeld I.limit) (plain_edges I.whole C.counts edges.now) }
    requires ascending { IsAscending (plain_edges I.whole C.counts edges.now) }
    requires strips { AreHeldStripsOf I.whole I.limit (plain_edges I.whole C.counts edges.now) strips.now }
{
    if edges.len() < LEAST_EDGES {
        return Ok(Sample {
            misses_many: false,
            shares_many: false,
        });
    }
    let distance = edges.len() / SAMPLE_SIZE / KINDS_PERIOD * KINDS_PERIOD + 1;
    let mut near = Vec::new(alloc);
    let mut missing: usize = 0;
    let mut sharing: usize = 0;
    for k in 0..SAMPLE_SIZE {
        let i = k.saturating_mul(distance);
        if i < edges.len() {
            let e = &edges[i];
            near.clear();
            find_by_strips(&mut near, edges, strips, e, i + 1)?;
            if near.len() >= MANY_FOUND {
                let met = count_met(edges, e, &near);
                missing = missing.saturating_add(one_if_few(met.all, near.len()));
                sharing = sharing.saturating_add(one_if_few(met.elsewhere, near.len()));
            }
        }
    }
    Ok(Sample {
        misses_many: missing >= SAMPLE_SIZE / 4,
        shares_many: sharing >= SAMPLE_SIZE / 4,
    })
}

/// Returns 1 if the number is less than a quarter of the other, and 0 if not.
fn one_if_few(count: usize, all: usize) -> usize {
    if count < all / 4 { 1 } else { 0 }
}

/// Numbers of edges that an edge meets.
#[derive(Clone, Copy)]
struct Met {
    /// The edges that it meets. Bundles with such edges do not lie beside it.
    all: usize,
    /// Those that share no end with it.
    elsewhere: usize,
}

/// Counts the edges at the places that e meets.
fn count_met<I: IntNumber, C: EdgeCount>(
    edges: &[CountedEdge<I, C>],
    e: &CountedEdge<I, C>,
    places: &[usize],
) -> Met
    requires held { All (IsHeld I.limit) (plain_edges I.whole C.counts edges.now) }
    requires one { IsHeld I.limit (plain_edge I.whole C.counts e.now) }
    requires within { All (λ j. j < length edges.now) places.now }
{
    let mut sharing: usize = 0;
    let mut elsewhere: usize = 0;
    for place in places {
        let f = &edges[*place];
        if shares_end(e, f) {
            sharing = sharing.saturating_add(1);
        } else if !meet_in_ends(e, f) {
            elsewhere = elsewhere.saturating_add(1);
        }
    }
    Met {
        all: elsewhere.saturating_add(sharing),
        elsewhere,
    }
}

// Returns whether the two edges share an end.
fn shares_end<I: IntNumber, C: EdgeCount>(e: &CountedEdge<I, C>, f: &CountedEdge<I, C>) -> bool {
    is_same(e.a, f.a) || is_same(e.a, f.b) || is_same(e.b, f.a) || is_same(e.b, f.b)
}
