//! Rebalancing of a tree, by links and heights alone.

ghost use Rattle.std.specs.Prelude.{◌≡◌};
ghost use Rattle.overlay_scan.specs.Trees.{Tree, AreParts, HasParts, IsTooHigh, IsRebalanced};

use crate::tree::links::{NodeIndex, Side};
use crate::tree::nodes::ScanNodes;
use overlay_geom::number::IntNumber;
use std::alloc::Allocator;

impl<I: IntNumber, V: Copy, A: Allocator> ScanNodes<I, V, A> {
    /// Joins a node and two trees whose heights differ by at most two, and returns the root. `near` goes on the given
    /// side of the node, `far` on the other side. The two trees share no node.
    pub fn balance(
        &mut self,
        i: NodeIndex,
        side: Side,
        near: Option<NodeIndex>,
        far: Option<NodeIndex>,
    ) -> Option<NodeIndex>
        requires { HasParts 2 self.old.links side near i.place far }
        ensures tree { (a b : _) → AreParts 2 self.old.links side near i.place far a b
            → IsRebalanced self.old.links self.new.links result side a i.place b }
        ensures entries { self.new.entries ≡ self.old.entries }
        ensures visits { self.new.visits ≡ self.old.visits }
    {
        let here = self.height(near);
        let there = self.height(far);
        if here.saturating_sub(there) > 1 {
            self.lower(i, side, near, far)
        } else if there.saturating_sub(here) > 1 {
            self.lower(i, side.other(), far, near)
        } else {
            self.link(i, side, near, far);
            Some(i)
        }
    }

    // Joins a node and two trees where `high` is higher than `low` by two.
    fn lower(
        &mut self,
        i: NodeIndex,
        side: Side,
        high: Option<NodeIndex>,
        low: Option<NodeIndex>,
    ) -> Option<NodeIndex>
        requires { (a : Tree) × (b : Tree) × IsTooHigh self.old.links side high i.place low a b }
        ensures tree { (a b : _) → IsTooHigh self.old.links side high i.place low a b
            → IsRebalanced self.old.links self.new.links result side a i.place b }
        ensures entries { self.new.entries ≡ self.old.entries }
        ensures visits { self.new.visits ≡ self.old.visits }
    {
        let Some(j) = high else { unreachable!() };
        let top = self.links(j);
        let outer = top.on(side);
        let inner = top.on(side.other());
        if self.height(outer) >= self.height(inner) {
            self.link(i, side, inner, low);
            self.link(j, side, outer, Some(i));
            return Some(j);
        }
        let Some(k) = inner else { unreachable!() };
        let middle = self.links(k);
        self.link(j, side, outer, middle.on(side));
        self.link(i, side, middle.on(side.other()), low);
        self.link(k, side, Some(j), Some(i));
        Some(k)
    }
}
