//! Live edges in a list that turns into a tree.

ghost use Rattle.std.specs.Prelude.{◌≡◌, [], None, Some, OnOk, OnErr, IsOkUnless, cond, nat_lt};
ghost use Rattle.overlay_geom.specs.Lines.{plain_line};
ghost use Rattle.overlay_scan.specs.Scan.{empty_sweep, live_at, moved_to};
ghost use Rattle.overlay_scan.specs.Scan.{MayMoveTo, IsOver, IsAsked, IsSweep, IsPutIn};
ghost use Rattle.overlay_scan.specs.Scan.{MeetsOthers, IsNewAmong, value_below};
ghost use Rattle.overlay_scan.specs.Scan.{IsCallableOn, IsAnsweredBy, AnswersRise, value_up_to};
ghost use Rattle.overlay_scan.specs.EitherScans.{either_sweep, in_list, in_tree, IsQuickInEither};
ghost use Rattle.overlay_scan.specs.Turning.{IsReady, HasRoom};

use crate::list::ScanList;
use crate::scan::Scan;
use crate::tree::ScanTree;
use crate::tree::turning::tree_if_many;
use overlay_geom::error::OverlayError;
use overlay_geom::number::IntNumber;
use overlay_geom::path::IntLine;
use std::alloc::Allocator;
use std::cmp::Ordering;
use std::marker::Model;

// Greatest number of edges that a list holds. It is quicker than a tree up to some 1,000 live edges, and slower from
// some 2,000 to 4,000 on.
const MOST_LISTED: usize = 2000;

/// A [`Scan`] that begins as a list, and turns into a tree when the list would hold more than a number of edges. Edges
/// that have ended count until they are dropped. A full list drops them, and stays a list where less than half of the
/// number are left. Both give equal answers; a tree visits few edges for each answer. A tree stays a tree, also after
/// `clear`.
#[derive(Drop)]
pub struct EitherScan<I: IntNumber, V: Copy, A: Allocator> {
    kept: Kept<I, V, A>,
    // the greatest number of edges that a list holds
    most: usize,
}

// What keeps the edges.
#[derive(Drop)]
enum Kept<I: IntNumber, V: Copy, A: Allocator> {
    Listed(ScanList<I, V, A>),
    Treed(ScanTree<I, V, A>),
}

impl<I: IntNumber, V: Copy, A: Allocator> Model for EitherScan<I, V, A> {
    ghost use Rattle.overlay_scan.specs.EitherScans.{EitherEdges, either_edges, HoldsManyAsTree};

    ghost Value = { EitherEdges I V };

    ghost view = { λ s. either_edges s.kept s.most };

    ghost invariant = { λ s. HoldsManyAsTree (either_edges s.kept s.most) };
}

impl<I: IntNumber, V: Copy, A: Allocator> EitherScan<I, V, A> {
    /// Makes a scan without edges, which turns into a tree when it would hold more than 2,000. It will take its memory
    /// from the allocator, and takes none yet.
    pub fn default(alloc: A) -> Self
        ensures empty { either_sweep I.whole result ≡ empty_sweep }
        ensures list { result ≡ in_list [] None 2000 }
    {
        EitherScan::turning_at(alloc, MOST_LISTED)
    }

    /// Makes a scan without edges, which turns into a tree when it would hold more than `count`. Where `count` is 0, it
    /// is a tree from the first edge on. It will take its memory from the allocator, and takes none yet.
    pub fn turning_at(alloc: A, count: usize) -> Self
        ensures empty { either_sweep I.whole result ≡ empty_sweep }
        ensures list { result ≡ in_list [] None count }
    {
        EitherScan {
            kept: Kept::Listed(ScanList::default(alloc)),
            most: count,
        }
    }

    /// Makes a scan without edges for a `count` of things whose edges it will hold. From `tree_from` things on it is a
    /// tree from the first edge on. With fewer it is a list, which turns as that of `default` does. It will take its
    /// memory from the allocator, and takes none yet.
    pub fn for_count(alloc: A, count: usize, tree_from: usize) -> Self
        ensures empty { either_sweep I.whole result ≡ empty_sweep }
        ensures list { result ≡ in_list [] None (cond (nat_lt count tree_from) 2000 0) }
    {
        if count < tree_from {
            EitherScan::default(alloc)
        } else {
            EitherScan::turning_at(alloc, 0)
        }
    }

    // Makes room for an edge at x. A full list drops the edges that have ended there, and turns into a tree where many
    // are left.
    #[inline(always)]
    fn make_room(&mut self, x: I) -> Result<(), OverlayError>
    where
        A: Clone,
        requires state { IsSweep I.limit (either_sweep I.whole self.old) }
        requires moves { MayMoveTo (I.whole x) (either_sweep I.whole self.old) }
        ensures ok { OnOk result (HasRoom self.old self.new) }
        ensures ready { OnOk result (IsReady I.limit (I.whole x) (either_sweep I.whole self.old)
            (either_sweep I.whole self.new)) }
        ensures err { OnErr result
            (either_sweep I.whole self.new ≡ moved_to (I.whole x) (either_sweep I.whole self.old)) }
        ensures quick_err { OnErr result (IsQuickInEither self.old self.new 0) }
        ensures only { IsOkUnless result OverlayError.Memory }
    {
        let Kept::Listed(list) = &mut self.kept else {
            return Ok(());
        };
        if list.held_count() < self.most {
            return Ok(());
        }
        if let Some(tree) = tree_if_many(list, self.most, x)? {
            self.turn_into(tree);
        }
        Ok(())
    }

    // Becomes a tree.
    #[cold]
    fn turn_into(&mut self, tree: ScanTree<I, V, A>)
        ensures { self.new ≡ in_tree tree self.old.most }
    {
        self.kept = Kept::Treed(tree);
    }
}

impl<I: IntNumber, V: Copy, A: Allocator + Clone> Scan<I, V> for EitherScan<I, V, A> {
    ghost use Rattle.overlay_scan.specs.EitherScans.{either_sweep};

    ghost content = { either_sweep I.whole };

    fn insert(&mut self, edge: IntLine<I>, value: V, x: I) -> Result<(), OverlayError>
        requires state { IsSweep I.limit (either_sweep I.whole self.old) }
        requires moves { MayMoveTo (I.whole x) (either_sweep I.whole self.old) }
        requires over { IsOver I.limit (I.whole x) (plain_line I.whole edge) }
        requires meets { MeetsOthers (plain_line I.whole edge)
            (live_at (I.whole x) (either_sweep I.whole self.old).entries) }
        requires fresh { IsNewAmong (plain_line I.whole edge)
            (live_at (I.whole x) (either_sweep I.whole self.old).entries) }
        ensures ok { OnOk result (IsPutIn (I.whole x) (record { edge = plain_line I.whole edge; value = value })
            (live_at (I.whole x) (either_sweep I.whole self.old).entries) (either_sweep I.whole self.new).entries) }
        ensures err { OnErr result
            (either_sweep I.whole self.new ≡ moved_to (I.whole x) (either_sweep I.whole self.old)) }
        ensures reached { (either_sweep I.whole self.new).reached ≡ Some (I.whole x) }
        ensures state { IsSweep I.limit (either_sweep I.whole self.new) }
        ensures only { IsOkUnless result OverlayError.Memory }
        ensures quick { OnOk result (IsQuickInEither self.old self.new 1) }
        ensures quick_err { OnErr result (IsQuickInEither self.old self.new 0) }
    {
        self.make_room(x)?;
        match &mut self.kept {
            Kept::Listed(list) => list.insert(edge, value, x),
            Kept::Treed(tree) => tree.insert(edge, value, x),
        }
    }

    fn first_less(&mut self, x: I, default: V, edge: IntLine<I>) -> V
        requires state { IsSweep I.limit (either_sweep I.whole self.old) }
        requires moves { MayMoveTo (I.whole x) (either_sweep I.whole self.old) }
        requires asked { IsAsked I.limit (I.whole x) (plain_line I.whole edge) }
        requires meets { MeetsOthers (plain_line I.whole edge)
            (live_at (I.whole x) (either_sweep I.whole self.old).entries) }
        ensures value { result ≡ value_below default (plain_line I.whole edge)
            (live_at (I.whole x) (either_sweep I.whole self.old).entries) }
        ensures content { either_sweep I.whole self.new ≡ moved_to (I.whole x) (either_sweep I.whole self.old) }
        ensures state { IsSweep I.limit (either_sweep I.whole self.new) }
        ensures kind { self.new.is_tree ≡ self.old.is_tree }
        ensures quick { IsQuickInEither self.old self.new 0 }
    {
        match &mut self.kept {
            Kept::Listed(list) => list.first_less(x, default, edge),
            Kept::Treed(tree) => tree.first_less(x, default, edge),
        }
    }

    fn first_less_or_equal_by<F: Fn(IntLine<I>) -> Ordering + Drop>(
        &mut self,
        x: I,
        default: V,
        order: F,
    ) -> V
        requires state { IsSweep I.limit (either_sweep I.whole self.old) }
        requires moves { MayMoveTo (I.whole x) (either_sweep I.whole self.old) }
        requires callable { IsCallableOn I.whole (F.pre order)
            (live_at (I.whole x) (either_sweep I.whole self.old).entries) }
        ensures value { (answer : _) → IsAnsweredBy I.whole (F.post order) answer
            (live_at (I.whole x) (either_sweep I.whole self.old).entries)
            → AnswersRise answer (live_at (I.whole x) (either_sweep I.whole self.old).entries)
            → result ≡ value_up_to default answer (live_at (I.whole x) (either_sweep I.whole self.old).entries) }
        ensures content { either_sweep I.whole self.new ≡ moved_to (I.whole x) (either_sweep I.whole self.old) }
        ensures state { IsSweep I.limit (either_sweep I.whole self.new) }
        ensures kind { self.new.is_tree ≡ self.old.is_tree }
        ensures quick { IsQuickInEither self.old self.new 0 }
    {
        match &mut self.kept {
            Kept::Listed(list) => list.first_less_or_equal_by(x, default, order),
            Kept::Treed(tree) => tree.first_less_or_equal_by(x, default, order),
        }
    }

    fn clear(&mut self)
        ensures empty { either_sweep I.whole self.new ≡ empty_sweep }
        ensures kind { self.new.is_tree ≡ self.old.is_tree }
        ensures number { self.new.most ≡ self.old.most }
        ensures visits { self.new.held.visits ≡ self.old.held.visits }
    {
        match &mut self.kept {
            Kept::Listed(list) => list.clear(),
            Kept::Treed(tree) => tree.clear(),
        }
    }
}
