//! The list of edges before a cut, with marks of its open edges, and the edges that changed since.

ghost use Rattle.std.specs.Prelude.{All, IfOk, IfSome};
ghost use Rattle.overlay_plane.specs.Carried.{edges_in};
ghost use Rattle.overlay_order.specs.Content.{plain_edges, IsAscending, IsHeld};
ghost use Rattle.overlay_pairs.specs.Changed.{AreHeldChangesOf, AreOpenIn};

use crate::content::Content;
use overlay_geom::number::IntNumber;
use overlay_order::count::EdgeCount;
use overlay_order::edge::CountedEdge;
use overlay_pairs::changed::{Changed, changes_between};
use std::alloc::{AllocError, Allocator};

/// A list of edges, and marks of those that meet other edges elsewhere than in ends.
#[derive(Drop)]
pub(crate) struct Settling<I: IntNumber, C: EdgeCount, A: Allocator> {
    /// The edges.
    pub edges: Content<I, C, A>,
    /// For each edge, whether it is open. Two edges that are not open meet in ends alone.
    pub is_open: Vec<bool, A>,
}

/// Returns the edges of a list that may meet other edges elsewhere than in ends, as `changes_between` does. The result
/// is None without a list before, too. The edges ascend.
pub(crate) fn changes_since<I: IntNumber, C: EdgeCount, A: Allocator + Clone>(
    alloc: A,
    edges: &[CountedEdge<I, C>],
    before: &Option<Settling<I, C, A>>,
) -> Result<Option<Changed<I, C, A>>, AllocError>
    requires held { All (IsHeld I.limit) (plain_edges I.whole C.counts edges.now) }
    requires ascending { IsAscending (plain_edges I.whole C.counts edges.now) }
    requires before { IfSome before.now (λ s. AreOpenIn (edges_in s.edges) s.is_open.items) }
    ensures ok { IfOk result (λ found.
        IfSome found (AreHeldChangesOf I.whole C.counts I.limit (plain_edges I.whole C.counts edges.now))) }
{
    match before {
        Some(before) => changes_between(alloc, edges, before.edges.edges(), &before.is_open),
        None => Ok(None),
    }
}
