//! Removal of a node from a tree, by links and heights alone.

ghost use Rattle.std.specs.Prelude.{◌≡◌, ◌++◌, Some};
ghost use Rattle.overlay_scan.specs.Trees.{Tree, Fork, items, HasTree, IsTreeAt, IsReplaced, IsFirstTaken};

use crate::tree::links::{NodeIndex, Side};
use crate::tree::nodes::ScanNodes;
use overlay_geom::number::IntNumber;
use std::alloc::Allocator;

impl<I: IntNumber, V: Copy, A: Allocator> ScanNodes<I, V, A> {
    /// Takes the root out of a tree, and returns the root of the rest.
    pub(crate) fn take_out(&mut self, i: NodeIndex) -> Option<NodeIndex>
        requires { (l : Tree) × (r : Tree) × IsTreeAt self.old.links (Some i) (Fork l i.place r) }
        ensures tree { (l r : Tree) → IsTreeAt self.old.links (Some i) (Fork l i.place r)
            → IsReplaced (items (Fork l i.place r)) self.old.links self.new.links (Fork l i.place r) result
            (items l ++ items r) }
        ensures entries { self.new.entries ≡ self.old.entries }
        ensures visits { self.new.visits ≡ self.old.visits }
    {
        let links = self.links(i);
        let Some(right) = links.right else {
            return links.left;
        };
        let (first, rest) = self.take_first(right);
        self.balance(first, Side::Right, rest, links.left)
    }

    // Takes the first node out of a tree, and returns it and the root of the rest.
    fn take_first(&mut self, i: NodeIndex) -> (NodeIndex, Option<NodeIndex>)
        requires { HasTree self.old.links (Some i) }
        ensures tree { (t : Tree) → IsTreeAt self.old.links (Some i) t
            → IsFirstTaken self.old.links self.new.links t result.0.place result.1 }
        ensures entries { self.new.entries ≡ self.old.entries }
        ensures visits { self.new.visits ≡ self.old.visits }
    {
        let links = self.links(i);
        let Some(left) = links.left else {
            return (i, links.right);
        };
        let height = self.height(links.left);
        let (first, rest) = self.take_first(left);
        if self.is_kept(rest, links.left, height) {
            return (first, Some(i));
        }
        let root = self.balance(i, Side::Left, rest, links.right);
        (first, root)
    }
}
