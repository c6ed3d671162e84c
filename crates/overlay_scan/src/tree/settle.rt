//! Repeated descents through a tree, until a descent meets no ended entry.

ghost use Rattle.std.specs.Prelude.{◌≡◌, ℕ, List, length};
ghost use Rattle.overlay_scan.specs.Scan.{IsCallableOn};
ghost use Rattle.overlay_scan.specs.Descents.{live_entries};
ghost use Rattle.overlay_scan.specs.Forests.{CanSettle, IsSettledSo};
ghost use Rattle.overlay_scan.specs.Trees.{Tree, items, IsTreeAt};

use crate::tree::descend::End;
use crate::tree::links::NodeIndex;
use crate::tree::nodes::ScanNodes;
use overlay_geom::number::IntNumber;
use overlay_geom::path::IntLine;
use std::alloc::Allocator;
use std::cmp::Ordering;

/// The tree that is left, and the value found in it.
#[derive(Clone, Copy)]
pub struct Settled<V> {
    /// The root of the tree.
    pub root: Option<NodeIndex>,
    /// The first reusable node.
    pub free: Option<NodeIndex>,
    /// The value of the highest live entry that is not above, if there is one.
    pub value: Option<V>,
}

impl<I: IntNumber, V: Copy, A: Allocator> ScanNodes<I, V, A> {
    /// Descends until it meets no entry that has ended at x. The last descent inserts the node `put`, if one is given,
    /// above the live entries for which the order does not answer `Greater`. The nodes of ended entries become
    /// reusable.
    pub fn settle<F: Fn(IntLine<I>) -> Ordering>(
        &mut self,
        root: Option<NodeIndex>,
        free: Option<NodeIndex>,
        put: Option<NodeIndex>,
        x: I,
        order: &F,
    ) -> Settled<V>
        requires forest { (t : Tree) × (unused : List ℕ) × CanSettle self.old.links root free put t unused }
        requires callable { (t : Tree) → IsTreeAt self.old.links root t → IsCallableOn I.whole (F.pre order.now)
            (live_entries I.whole (I.whole x) self.old.entries (items t)) }
        ensures found { (t : Tree) → (unused : List ℕ) → CanSettle self.old.links root free put t unused →
            IsSettledSo I.whole (F.post order.now) (I.whole x) self.old.entries self.old.visits self.new.visits
            self.new.links t put result.root result.free result.value }
        ensures entries { self.new.entries ≡ self.old.entries }
        ensures count { length self.new.links ≡ length self.old.links }
    {
        let mut root = root;
        let mut free = free;
        loop {
            let descent = self.descend(root, put, x, order);
            root = descent.root;
            match descent.end {
                End::Ended(i) => {
                    self.set_unused(i, free);
                    free = Some(i);
                }
                End::Found(value) => return Settled { root, free, value },
            }
        }
    }
}
