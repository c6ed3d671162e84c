//! Trees made of lists.

ghost use Rattle.std.specs.Prelude.{◌≡◌, ◌≤◌, IfOk, IsOkUnless};
ghost use Rattle.overlay_scan.specs.HeldEntries.{plain_sweep, held_count};
ghost use Rattle.overlay_scan.specs.Lists.{plain_entries};
ghost use Rattle.overlay_scan.specs.Scan.{moved_to, AreLive, MayMoveTo, IsSweep};
ghost use Rattle.overlay_scan.specs.Turning.{HasRoomOrTree, IsTreeOf};

use crate::list::{LiveEdge, ScanList};
use crate::scan::Scan;
use crate::tree::ScanTree;
use overlay_geom::error::OverlayError;
use overlay_geom::number::IntNumber;
use std::alloc::Allocator;

/// Drops the edges of a list that have ended at x. Where half of the number `most` or more are left, it returns a tree
/// of them; the list still holds them. Else it returns `None`.
#[cold]
pub(crate) fn tree_if_many<I: IntNumber, V: Copy, A: Allocator + Clone>(
    list: &mut ScanList<I, V, A>,
    most: usize,
    x: I,
) -> Result<Option<ScanTree<I, V, A>>, OverlayError>
    requires state { IsSweep I.limit (plain_sweep I.whole list.old) }
    requires moves { MayMoveTo (I.whole x) (plain_sweep I.whole list.old) }
    ensures ok { IfOk result (HasRoomOrTree I.whole I.limit (I.whole x) most list.new.live) }
    ensures list { plain_sweep I.whole list.new ≡ moved_to (I.whole x) (plain_sweep I.whole list.old) }
    ensures entries { (plain_sweep I.whole list.new).entries ≡ plain_entries I.whole list.new.live }
    ensures no_more { held_count list.new ≤ held_count list.old }
    ensures only { IsOkUnless result OverlayError.Memory }
{
    list.drop_ended(x);
    if list.held_count() < most / 2 {
        return Ok(None);
    }
    let alloc = list.allocator().clone()?;
    let tree = tree_of(alloc, list.held(), x)?;
    Ok(Some(tree))
}

// Makes a tree of edges that are live at x, and stand from bottom to top.
fn tree_of<I: IntNumber, V: Copy, A: Allocator>(
    alloc: A,
    edges: &[LiveEdge<I, V>],
    x: I,
) -> Result<ScanTree<I, V, A>, OverlayError>
    requires { AreLive I.limit (I.whole x) (plain_entries I.whole edges.now) }
    ensures ok { IfOk result (IsTreeOf I.whole I.limit (I.whole x) edges.now) }
    ensures only { IsOkUnless result OverlayError.Memory }
{
    let mut tree = ScanTree::default(alloc);
    for edge in edges {
        tree.insert([edge.a, edge.b], edge.value, x)?;
    }
    Ok(tree)
}
