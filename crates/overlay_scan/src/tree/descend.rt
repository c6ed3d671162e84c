//! Descents through a tree.

ghost use Rattle.std.specs.Prelude.{◌≡◌, ◌+◌, ◌≤◌, ◌<◌, ◌∷◌, [], length, slice_get, Some};
ghost use Rattle.std.specs.declared.cmp.Ordering.{Ordering};
ghost use Rattle.overlay_scan.specs.Scan.{IsCallableOn};
ghost use Rattle.overlay_scan.specs.Descents.{live_entries, CanDescend, IsEndOf, side_of, end_above};
ghost use Rattle.overlay_scan.specs.Trees.{Tree, items, height, IsTreeAt};

use crate::list::{LiveEdge, has_ended};
use crate::tree::links::{NodeIndex, Side};
use crate::tree::nodes::ScanNodes;
use overlay_geom::number::IntNumber;
use overlay_geom::path::IntLine;
use overlay_geom::point::IntPoint;
use std::alloc::Allocator;
use std::cmp::Ordering;

/// Result of a descent through a tree.
#[derive(Clone, Copy)]
pub enum End<V> {
    /// An ended entry. It is taken out, and the descent begins again.
    Ended(NodeIndex),
    /// The value of the highest live entry that is not above, if there is one.
    Found(Option<V>),
}

impl<V: Copy> End<V> {
    // Returns the end of the whole descent, where it has passed an entry with this value on a side.
    fn above(self, side: Side, value: V) -> End<V>
        ensures { result ≡ end_above side value self }
    {
        match self {
            End::Ended(i) => End::Ended(i),
            End::Found(found) => End::Found(match (side, found) {
                (Side::Right, None) => Some(value),
                (_, found) => found,
            }),
        }
    }
}

/// The tree that a descent leaves, and the end of the descent.
#[derive(Clone, Copy)]
pub struct Descent<V> {
    /// The root of the tree.
    pub root: Option<NodeIndex>,
    /// The end of the descent.
    pub end: End<V>,
}

impl<I: IntNumber, V: Copy, A: Allocator> ScanNodes<I, V, A> {
    /// Descends to the place between the live entries for which the order does not answer `Greater` and those above. It
    /// inserts the node `put` there, if one is given. If it meets an entry that has ended at x, it takes that out
    /// instead.
    pub fn descend<F: Fn(IntLine<I>) -> Ordering>(
        &mut self,
        root: Option<NodeIndex>,
        put: Option<NodeIndex>,
        x: I,
        order: &F,
    ) -> Descent<V>
        requires tree { (t : Tree) × CanDescend self.old.links root put t }
        requires callable { (t : Tree) → IsTreeAt self.old.links root t → IsCallableOn I.whole (F.pre order.now)
            (live_entries I.whole (I.whole x) self.old.entries (items t)) }
        ensures end { (t : Tree) → CanDescend self.old.links root put t →
            IsEndOf I.whole (F.post order.now) (I.whole x) self.old.entries self.old.links self.new.links t put
            result.root result.end }
        ensures entries { self.new.entries ≡ self.old.entries }
        ensures never_fall { self.old.visits ≤ self.new.visits }
        ensures visits { (t : Tree) → IsTreeAt self.old.links root t → self.new.visits ≤ self.old.visits + height t }
    {
        let Some(i) = root else {
            return Descent {
                root: put,
                end: End::Found(None),
            };
        };
        let f = self.visit(i);
        if has_ended(&f, x) {
            return Descent {
                root: self.take_out(i),
                end: End::Ended(i),
            };
        }
        let side = side_for(order, f.a, f.b);
        let links = self.links(i);
        let near = links.on(side);
        let height = self.height(near);
        let below = self.descend(near, put, x, order);
        let end = below.end.above(side, f.value);
        if self.is_kept(below.root, near, height) {
            return Descent { root: Some(i), end };
        }
        let root = self.balance(i, side, below.root, links.on(side.other()));
        Descent { root, end }
    }

    // Visits a node and returns its entry.
    fn visit(&mut self, i: NodeIndex) -> LiveEdge<I, V>
        requires { i.place < length self.old.links }
        ensures entry { slice_get self.old.entries i.place ≡ Some result }
        ensures count { self.new.visits ≡ self.old.visits + 1 }
        ensures links { self.new.links ≡ self.old.links }
        ensures entries { self.new.entries ≡ self.old.entries }
    {
        let ([a, b], value) = self.entry(i);
        LiveEdge { a, b, value }
    }
}

// Returns the side of a line on which the descent goes on.
fn side_for<I: IntNumber, F: Fn(IntLine<I>) -> Ordering>(
    order: &F,
    a: IntPoint<I>,
    b: IntPoint<I>,
) -> Side
    requires { F.pre order.now (a ∷ b ∷ []) }
    ensures { (o : Ordering) × F.post order.now (a ∷ b ∷ []) o × (result ≡ side_of o) }
{
    if order([a, b]).is_gt() {
        Side::Left
    } else {
        Side::Right
    }
}
