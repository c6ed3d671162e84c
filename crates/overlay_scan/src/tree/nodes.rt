//! The nodes of a tree in a list, each with an entry and with links to the nodes below it.

ghost use Rattle.std.specs.Prelude.{◌≡◌, ◌+◌, ◌<◌, [], ◌++◌, ◌∷◌, Some, IfSome, IfOk, OnOk, OnErr, length};
ghost use Rattle.std.specs.Prelude.{◌↔◌, true, slice_get, slice_set};
ghost use Rattle.overlay_scan.specs.Sides.{unused_before};
ghost use Rattle.overlay_scan.specs.Store.{IsEntryAt};
ghost use Rattle.overlay_scan.specs.Trees.{root_of, items, height, fork_on, Stands, AreParts, HasParts, IsRebuilt};
ghost use Rattle.overlay_scan.specs.declared.tree.links.TheConstants.{ALONE};

use crate::list::LiveEdge;
use crate::tree::links::{ALONE, Links, NodeIndex, Side, is_same};
use crate::tree::visits::Visits;
use overlay_geom::number::IntNumber;
use overlay_geom::path::IntLine;
use std::alloc::{AllocError, Allocator};
use std::marker::Model;

// A node.
#[derive(Clone, Copy)]
struct Node<I, V> {
    entry: LiveEdge<I, V>,
    links: Links,
}

/// The nodes of a tree. Only [`ScanNodes::entry`] reads an entry; it counts its calls, for contracts.
#[derive(Drop)]
pub struct ScanNodes<I: IntNumber, V: Copy, A: Allocator> {
    nodes: Vec<Node<I, V>, A>,
    visits: Visits,
}

impl<I: IntNumber, V: Copy, A: Allocator> Model for ScanNodes<I, V, A> {
    ghost use Rattle.std.specs.Prelude.{map};
    ghost use Rattle.overlay_scan.specs.Store.{Store};

    ghost Value = { Store I V };

    ghost view = { λ s. record {
      links = map (λ n. n.links) s.nodes.items;
      entries = map (λ n. n.entry) s.nodes.items;
      visits = s.visits.count;
    } };
}

impl<I: IntNumber, V: Copy, A: Allocator> ScanNodes<I, V, A> {
    /// Makes a list without nodes. It takes no memory.
    pub fn new(alloc: A) -> Self
        ensures links { result.links ≡ [] }
        ensures entries { result.entries ≡ [] }
        ensures visits { result.visits ≡ 0 }
    {
        ScanNodes {
            nodes: Vec::new(alloc),
            visits: Visits::none(),
        }
    }

    /// Visits a node: returns its entry's line and value, and counts the visit.
    pub fn entry(&mut self, i: NodeIndex) -> (IntLine<I>, V)
        requires { i.place < length self.old.links }
        ensures entry { IsEntryAt self.old.entries i.place result }
        ensures count { self.new.visits ≡ self.old.visits + 1 }
        ensures links { self.new.links ≡ self.old.links }
        ensures entries { self.new.entries ≡ self.old.entries }
    {
        self.visits = self.visits.and_one();
        let entry = self.nodes[i.place].entry;
        ([entry.a, entry.b], entry.value)
    }

    /// Returns the links of a node.
    pub fn links(&self, i: NodeIndex) -> Links
        requires { i.place < length self.now.links }
        ensures { slice_get self.now.links i.place ≡ Some result }
    {
        self.nodes[i.place].links
    }

    /// Returns the height of a tree, as its root stores it.
    pub fn height(&self, root: Option<NodeIndex>) -> usize
        requires { IfSome root (λ i. i.place < length self.now.links) }
        ensures { (t : _) → root ≡ root_of t → Stands self.now.links t → result ≡ height t }
    {
        match root {
            Some(i) => self.links(i).height,
            None => 0,
        }
    }

    /// Returns whether a tree has kept its root and its height.
    pub fn is_kept(&self, root: Option<NodeIndex>, was: Option<NodeIndex>, high: usize) -> bool
        requires { IfSome root (λ i. i.place < length self.now.links) }
        ensures { (t : _) → root ≡ root_of t → Stands self.now.links t
            → (result ≡ true) ↔ ((root ≡ was) × (height t ≡ high)) }
    {
        is_same(root, was) && self.height(root) == high
    }

    /// Links a node to two trees whose heights differ by at most one: `near` on the given side, `far` on the other
    /// side. The two trees share no node.
    pub fn link(
        &mut self,
        i: NodeIndex,
        side: Side,
        near: Option<NodeIndex>,
        far: Option<NodeIndex>,
    )
        requires { HasParts 1 self.old.links side near i.place far }
        ensures tree { (a b : _) → AreParts 1 self.old.links side near i.place far a b
            → IsRebuilt (i.place ∷ []) self.old.links self.new.links (Some i) (items (fork_on side a i.place b))
            (fork_on side a i.place b) }
        ensures entries { self.new.entries ≡ self.old.entries }
        ensures visits { self.new.visits ≡ self.old.visits }
    {
        let height = self.height(near).max(self.height(far)) + 1;
        self.nodes[i.place].links = Links::new(side, near, far, height);
    }

    /// Links a node that is in no tree to the next reusable node.
    pub(crate) fn set_unused(&mut self, i: NodeIndex, next: Option<NodeIndex>)
        requires { i.place < length self.old.links }
        ensures links { self.new.links ≡ slice_set self.old.links i.place (unused_before next) }
        ensures entries { self.new.entries ≡ self.old.entries }
        ensures visits { self.new.visits ≡ self.old.visits }
    {
        self.nodes[i.place].links = Links {
            left: next,
            right: None,
            height: 0,
        };
    }

    /// Gives a node that is in no tree another entry, and no subtrees.
    pub(crate) fn use_again(&mut self, i: NodeIndex, entry: LiveEdge<I, V>)
        requires { i.place < length self.old.links }
        ensures enough { length self.old.entries ≡ length self.old.links }
        ensures entries { self.new.entries ≡ slice_set self.old.entries i.place entry }
        ensures links { self.new.links ≡ slice_set self.old.links i.place ALONE }
        ensures visits { self.new.visits ≡ self.old.visits }
    {
        self.nodes[i.place] = Node {
            entry,
            links: ALONE,
        };
    }

    /// Adds a node with an entry and no subtrees. After a refusal, the nodes are as they were.
    pub fn push(&mut self, entry: LiveEdge<I, V>) -> Result<NodeIndex, AllocError>
        ensures enough { length self.old.entries ≡ length self.old.links }
        ensures place { IfOk result (λ i. i.place ≡ length self.old.links) }
        ensures ok { OnOk result (self.new.links ≡ self.old.links ++ ALONE ∷ []) }
        ensures entries { OnOk result (self.new.entries ≡ self.old.entries ++ entry ∷ []) }
        ensures visits { self.new.visits ≡ self.old.visits }
        ensures err { OnErr result (self.new ≡ self.old) }
    {
        let place = self.nodes.len();
        self.nodes.push(Node {
            entry,
            links: ALONE,
        })?;
        Ok(NodeIndex { place })
    }

    /// Drops all nodes.
    pub fn clear(&mut self)
        ensures links { self.new.links ≡ [] }
        ensures entries { self.new.entries ≡ [] }
        ensures visits { self.new.visits ≡ self.old.visits }
    {
        self.nodes.clear();
    }
}
