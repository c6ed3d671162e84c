//! Live edges in a balanced tree.

ghost use Rattle.std.specs.Prelude.{◌≡◌, [], ◌∷◌, true, not, int_lt, Some, OnOk, OnErr, IsOkUnless};
ghost use Rattle.std.specs.Ordering.{is_gt};
ghost use Rattle.overlay_geom.specs.Lines.{plain_line};
ghost use Rattle.overlay_scan.specs.Lists.{plain_entry, IsComparable, is_lower};
ghost use Rattle.overlay_scan.specs.Scan.{empty_sweep, live_at, moved_to};
ghost use Rattle.overlay_scan.specs.Scan.{MayMoveTo, IsOver, IsAsked, IsSweep, IsPutIn};
ghost use Rattle.overlay_scan.specs.Scan.{MeetsOthers, IsNewAmong, value_below};
ghost use Rattle.overlay_scan.specs.Scan.{IsCallableOn, IsAnsweredBy, AnswersRise, value_up_to};
ghost use Rattle.overlay_scan.specs.HeldEntries.{live_of, IsLookedUp};
ghost use Rattle.overlay_scan.specs.HeldEdges.{held_sweep, IsQuick};

use crate::list::{LiveEdge, live_edge, order_at_start};
use crate::scan::Scan;
use crate::tree::links::NodeIndex;
use crate::tree::nodes::ScanNodes;
use overlay_geom::error::OverlayError;
use overlay_geom::number::IntNumber;
use overlay_geom::path::IntLine;
use std::alloc::{AllocError, Allocator};
use std::cmp::Ordering;
use std::marker::Model;

mod descend;
pub mod either;
mod fresh;
pub mod laws;
mod links;
mod nodes;
mod rebalance;
mod settle;
mod take;
mod turning;
mod visits;

/// A [`Scan`] that keeps its edges in a balanced tree. A look-up or an insert drops an ended edge when it meets it on
/// its way down.
#[derive(Drop)]
pub struct ScanTree<I: IntNumber, V: Copy, A: Allocator> {
    nodes: ScanNodes<I, V, A>,
    // the root of the tree
    root: Option<NodeIndex>,
    // the first reusable node
    free: Option<NodeIndex>,
    // the last x that the line moved to, and none after `clear`
    reached: Option<I>,
}

impl<I: IntNumber, V: Copy, A: Allocator> Model for ScanTree<I, V, A> {
    ghost use Rattle.std.specs.Prelude.{◌≡◌, filter_map, slice_get, length};
    ghost use Rattle.overlay_scan.specs.HeldEdges.{HeldEdges};
    ghost use Rattle.overlay_scan.specs.Forests.{tree_at, HasForest};
    ghost use Rattle.overlay_scan.specs.Trees.{items};

    ghost Value = { HeldEdges I V };

    ghost view = { λ s. record {
      entries = filter_map (slice_get s.nodes.entries) (items (tree_at s.nodes.links s.root));
      reached = s.reached;
      visits = s.nodes.visits;
    } };

    ghost invariant = { λ s. HasForest s.nodes.links s.root s.free × (length s.nodes.entries ≡ length s.nodes.links) };
}

impl<I: IntNumber, V: Copy, A: Allocator> ScanTree<I, V, A> {
    /// Makes a scan without edges, which will take its memory from the allocator. It takes none yet.
    pub fn default(alloc: A) -> Self
        ensures empty { held_sweep I.whole result ≡ empty_sweep }
        ensures visits { result.visits ≡ 0 }
    {
        ScanTree {
            nodes: ScanNodes::new(alloc),
            root: None,
            free: None,
            reached: None,
        }
    }

    // Looks up by an order at x.
    fn look_up<F: Fn(IntLine<I>) -> Ordering>(&mut self, x: I, order: &F) -> Option<V>
        requires { IsCallableOn I.whole (F.pre order.now) (live_of I.whole (I.whole x) self.old.entries) }
        ensures found { IsLookedUp I.whole (F.post order.now) (I.whole x) self.old.entries self.new.entries
            [] result }
        ensures quick { IsQuick self.old self.new 0 }
        ensures reached { self.new.reached ≡ Some x }
    {
        let settled = self.nodes.settle(self.root, self.free, None, x, order);
        self.root = settled.root;
        self.free = settled.free;
        self.reached = Some(x);
        settled.value
    }

    // Inserts an entry by an order at x.
    fn put_in<F: Fn(IntLine<I>) -> Ordering>(
        &mut self,
        x: I,
        entry: LiveEdge<I, V>,
        order: &F,
    ) -> Result<(), AllocError>
        requires live { int_lt (I.whole x) (I.whole entry.b.x) ≡ true }
        requires callable { IsCallableOn I.whole (F.pre order.now) (live_of I.whole (I.whole x) self.old.entries) }
        ensures ok { OnOk result ((v : _) × IsLookedUp I.whole (F.post order.now) (I.whole x) self.old.entries
            self.new.entries (plain_entry I.whole entry ∷ []) v) }
        ensures quick { OnOk result (IsQuick self.old self.new 1) }
        ensures err { OnErr result (self.new ≡ record self.old { reached = Some x }) }
        ensures reached { self.new.reached ≡ Some x }
    {
        self.reached = Some(x);
        let fresh = self.nodes.fresh(self.free, entry)?;
        let settled = self
            .nodes
            .settle(self.root, fresh.free, Some(fresh.node), x, order);
        self.root = settled.root;
        self.free = settled.free;
        Ok(())
    }
}

impl<I: IntNumber, V: Copy, A: Allocator> Scan<I, V> for ScanTree<I, V, A> {
    ghost use Rattle.overlay_scan.specs.HeldEdges.{held_sweep};

    ghost content = { held_sweep I.whole };

    fn insert(&mut self, edge: IntLine<I>, value: V, x: I) -> Result<(), OverlayError>
        requires state { IsSweep I.limit (held_sweep I.whole self.old) }
        requires moves { MayMoveTo (I.whole x) (held_sweep I.whole self.old) }
        requires over { IsOver I.limit (I.whole x) (plain_line I.whole edge) }
        requires meets { MeetsOthers (plain_line I.whole edge)
            (live_at (I.whole x) (held_sweep I.whole self.old).entries) }
        requires fresh { IsNewAmong (plain_line I.whole edge)
            (live_at (I.whole x) (held_sweep I.whole self.old).entries) }
        ensures ok { OnOk result (IsPutIn (I.whole x) (record { edge = plain_line I.whole edge; value = value })
            (live_at (I.whole x) (held_sweep I.whole self.old).entries) (held_sweep I.whole self.new).entries) }
        ensures err { OnErr result
            (held_sweep I.whole self.new ≡ moved_to (I.whole x) (held_sweep I.whole self.old)) }
        ensures reached { (held_sweep I.whole self.new).reached ≡ Some (I.whole x) }
        ensures state { IsSweep I.limit (held_sweep I.whole self.new) }
        ensures only { IsOkUnless result OverlayError.Memory }
        ensures quick { OnOk result (IsQuick self.old self.new 1) }
        ensures quick_err { OnErr result (IsQuick self.old self.new 0) }
    {
        let entry = live_edge(edge, value);
        let asked = entry;
        let order = |f: IntLine<I>| -> Ordering
            requires { IsComparable I.limit (plain_line I.whole f) (plain_entry I.whole asked).edge }
            ensures { not (is_gt result) ≡ is_lower (plain_line I.whole f) (plain_entry I.whole asked).edge }
        { order_at_start(f, &asked) };
        self.put_in(x, entry, &order)?;
        Ok(())
    }

    fn first_less(&mut self, x: I, default: V, edge: IntLine<I>) -> V
        requires state { IsSweep I.limit (held_sweep I.whole self.old) }
        requires moves { MayMoveTo (I.whole x) (held_sweep I.whole self.old) }
        requires asked { IsAsked I.limit (I.whole x) (plain_line I.whole edge) }
        requires meets { MeetsOthers (plain_line I.whole edge)
            (live_at (I.whole x) (held_sweep I.whole self.old).entries) }
        ensures value { result ≡ value_below default (plain_line I.whole edge)
            (live_at (I.whole x) (held_sweep I.whole self.old).entries) }
        ensures content { held_sweep I.whole self.new ≡ moved_to (I.whole x) (held_sweep I.whole self.old) }
        ensures state { IsSweep I.limit (held_sweep I.whole self.new) }
        ensures quick { IsQuick self.old self.new 0 }
    {
        let asked = live_edge(edge, default);
        let order = |f: IntLine<I>| -> Ordering
            requires { IsComparable I.limit (plain_line I.whole f) (plain_entry I.whole asked).edge }
            ensures { not (is_gt result) ≡ is_lower (plain_line I.whole f) (plain_entry I.whole asked).edge }
        { order_at_start(f, &asked) };
        let found = self.look_up(x, &order);
        found.unwrap_or(default)
    }

    fn first_less_or_equal_by<F: Fn(IntLine<I>) -> Ordering + Drop>(
        &mut self,
        x: I,
        default: V,
        order: F,
    ) -> V
        requires state { IsSweep I.limit (held_sweep I.whole self.old) }
        requires moves { MayMoveTo (I.whole x) (held_sweep I.whole self.old) }
        requires callable { IsCallableOn I.whole (F.pre order)
            (live_at (I.whole x) (held_sweep I.whole self.old).entries) }
        ensures value { (answer : _) → IsAnsweredBy I.whole (F.post order) answer
            (live_at (I.whole x) (held_sweep I.whole self.old).entries)
            → AnswersRise answer (live_at (I.whole x) (held_sweep I.whole self.old).entries)
            → result ≡ value_up_to default answer (live_at (I.whole x) (held_sweep I.whole self.old).entries) }
        ensures content { held_sweep I.whole self.new ≡ moved_to (I.whole x) (held_sweep I.whole self.old) }
        ensures state { IsSweep I.limit (held_sweep I.whole self.new) }
        ensures quick { IsQuick self.old self.new 0 }
    {
        let value = self.look_up(x, &order);
        value.unwrap_or(default)
    }

    fn clear(&mut self)
        ensures empty { held_sweep I.whole self.new ≡ empty_sweep }
        ensures visits { self.new.visits ≡ self.old.visits }
    {
        self.nodes.clear();
        self.root = None;
        self.free = None;
        self.reached = None;
    }
}
