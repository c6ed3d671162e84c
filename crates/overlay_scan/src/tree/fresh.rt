//! Nodes for new entries.

ghost use Rattle.std.specs.Prelude.{◌≡◌, ℕ, List, length, OnErr, IfOk};
ghost use Rattle.overlay_scan.specs.Forests.{IsForest, IsFresh};
ghost use Rattle.overlay_scan.specs.Trees.{Tree};

use crate::list::LiveEdge;
use crate::tree::links::NodeIndex;
use crate::tree::nodes::ScanNodes;
use overlay_geom::number::IntNumber;
use std::alloc::{AllocError, Allocator};

/// A node that is in no tree, and the first reusable node after it.
#[derive(Clone, Copy)]
pub struct Fresh {
    /// The node.
    pub node: NodeIndex,
    /// The first reusable node.
    pub free: Option<NodeIndex>,
}

impl<I: IntNumber, V: Copy, A: Allocator> ScanNodes<I, V, A> {
    /// Returns a node for an entry: the first reusable node, or a new node. After a refusal, the nodes are as they
    /// were.
    pub fn fresh(
        &mut self,
        free: Option<NodeIndex>,
        entry: LiveEdge<I, V>,
    ) -> Result<Fresh, AllocError>
        requires { (root : _) × (t : Tree) × (unused : List ℕ) × IsForest self.old.links root free t unused }
        ensures ok { IfOk result (λ f. (root : _) → (t : Tree) → (unused : List ℕ)
            → IsForest self.old.links root free t unused
            → IsFresh self.old.entries self.new.entries self.new.links root t f.free f.node entry) }
        ensures enough { length self.new.entries ≡ length self.new.links }
        ensures visits { self.new.visits ≡ self.old.visits }
        ensures err { OnErr result (self.new ≡ self.old) }
    {
        let Some(node) = free else {
            let node = self.push(entry)?;
            return Ok(Fresh { node, free: None });
        };
        let free = self.links(node).left;
        self.use_again(node, entry);
        Ok(Fresh { node, free })
    }
}
