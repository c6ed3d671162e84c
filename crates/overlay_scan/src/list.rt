//! Live edges in a list.

ghost use Rattle.std.specs.Prelude.{◌≡◌, ◌≤◌, ◌+◌, [], ◌∷◌, true, not, int_lt, Some, OnOk, OnErr, IsOkUnless};
ghost use Rattle.std.specs.Ordering.{is_gt};
ghost use Rattle.overlay_geom.specs.Lines.{plain_line};
ghost use Rattle.overlay_scan.specs.HeldEntries.{live_of, plain_sweep, held_count, IsLookedUp};
ghost use Rattle.overlay_scan.specs.Lists.{plain_entry, plain_entries, IsInRange, IsComparable};
ghost use Rattle.overlay_scan.specs.Lists.{is_lower_at_start, is_lower};
ghost use Rattle.overlay_scan.specs.Scan.{empty_sweep, live_at, moved_to};
ghost use Rattle.overlay_scan.specs.Scan.{MayMoveTo, IsOver, IsAsked, IsSweep, IsPutIn};
ghost use Rattle.overlay_scan.specs.Scan.{MeetsOthers, IsNewAmong, value_below};
ghost use Rattle.overlay_scan.specs.Scan.{IsCallableOn, IsAnsweredBy, AnswersRise, value_up_to};

use crate::live::LiveEdges;
use crate::scan::Scan;
use overlay_geom::error::OverlayError;
use overlay_geom::number::{IntNumber, WideIntNumber};
use overlay_geom::path::IntLine;
use overlay_geom::point::IntPoint;
use overlay_geom::vector::cross_at;
use std::alloc::{AllocError, Allocator};
use std::cmp::Ordering;

/// An edge of the list, and its value.
#[derive(Clone, Copy)]
pub struct LiveEdge<I, V> {
    /// The smaller end, by x and then by y.
    pub a: IntPoint<I>,
    /// The larger end.
    pub b: IntPoint<I>,
    /// The value inserted with the edge.
    pub value: V,
}

/// A [`Scan`] that keeps its edges in a list. A look-up is a binary search. It begins at an edge which ends where the
/// asked edge starts, if one is remembered, and else where the last search ended. An ended edge stays in the list until
/// a new edge takes its place, or until many edges have ended.
#[derive(Drop)]
pub struct ScanList<I: IntNumber, V: Copy, A: Allocator> {
    // the edges over the line, and some ended edges
    live: LiveEdges<I, V, A>,
    // the last x that the line moved to, and none after `clear`
    reached: Option<I>,
}

impl<I: IntNumber, V: Copy, A: Allocator> ScanList<I, V, A> {
    /// Makes a scan without edges, which will take its memory from the allocator. It takes none yet.
    pub fn default(alloc: A) -> Self
        ensures { plain_sweep I.whole result ≡ empty_sweep }
    {
        ScanList {
            live: LiveEdges::new(alloc),
            reached: None,
        }
    }

    /// Returns the number of edges that the list holds, with those that have ended and are not yet dropped.
    pub(crate) fn held_count(&self) -> usize
        ensures { result ≡ held_count self.now }
    {
        self.live.len()
    }

    /// Moves to x, and drops the edges that have ended there.
    pub(crate) fn drop_ended(&mut self, x: I)
        requires { MayMoveTo (I.whole x) (plain_sweep I.whole self.old) }
        ensures content { plain_sweep I.whole self.new ≡ moved_to (I.whole x) (plain_sweep I.whole self.old) }
        ensures entries { (plain_sweep I.whole self.new).entries ≡ plain_entries I.whole self.new.live }
        ensures no_more { held_count self.new ≤ held_count self.old }
    {
        self.live.drop_ended(x);
        self.reached = Some(x);
    }

    /// Returns the edges that the list holds, from bottom to top.
    pub(crate) fn held(&self) -> &[LiveEdge<I, V>]
        ensures { result.now ≡ self.now.live }
    {
        self.live.as_slice()
    }

    /// Returns the allocator of the edges.
    pub(crate) fn allocator(&self) -> &A {
        self.live.allocator()
    }

    // Looks up by an order at x.
    fn look_up<F: Fn(IntLine<I>) -> Ordering>(&mut self, x: I, order: &F) -> Option<V>
        requires { IsCallableOn I.whole (F.pre order.now) (live_of I.whole (I.whole x) self.old.live) }
        ensures found { IsLookedUp I.whole (F.post order.now) (I.whole x) self.old.live self.new.live [] result }
        ensures no_more { held_count self.new ≤ held_count self.old }
        ensures reached { self.new.reached ≡ Some x }
    {
        let place = self.live.find(x, order);
        self.reached = Some(x);
        self.live.value_below(place)
    }

    // Looks up by an order at x, as `look_up` does. It is fast where an edge ends at the point v, near the answer.
    fn look_up_at<F: Fn(IntLine<I>) -> Ordering>(
        &mut self,
        v: IntPoint<I>,
        x: I,
        order: &F,
    ) -> Option<V>
        requires { IsCallableOn I.whole (F.pre order.now) (live_of I.whole (I.whole x) self.old.live) }
        ensures found { IsLookedUp I.whole (F.post order.now) (I.whole x) self.old.live self.new.live [] result }
        ensures no_more { held_count self.new ≤ held_count self.old }
        ensures reached { self.new.reached ≡ Some x }
    {
        self.live.aim_at(v, x);
        self.look_up(x, order)
    }

    // Inserts an entry by an order at x.
    fn put_in<F: Fn(IntLine<I>) -> Ordering>(
        &mut self,
        x: I,
        entry: LiveEdge<I, V>,
        order: &F,
    ) -> Result<(), AllocError>
        requires live { int_lt (I.whole x) (I.whole entry.b.x) ≡ true }
        requires callable { IsCallableOn I.whole (F.pre order.now) (live_of I.whole (I.whole x) self.old.live) }
        ensures ok { OnOk result ((v : _) × IsLookedUp I.whole (F.post order.now) (I.whole x) self.old.live
            self.new.live (plain_entry I.whole entry ∷ []) v) }
        ensures err { OnErr result
            (live_of I.whole (I.whole x) self.new.live ≡ live_of I.whole (I.whole x) self.old.live) }
        ensures one_more { OnOk result (held_count self.new ≤ held_count self.old + 1) }
        ensures no_more { OnErr result (held_count self.new ≤ held_count self.old) }
        ensures reached { self.new.reached ≡ Some x }
    {
        let place = self.live.find(x, order);
        self.reached = Some(x);
        self.live.put(place, entry, x)
    }
}

impl<I: IntNumber, V: Copy, A: Allocator> Scan<I, V> for ScanList<I, V, A> {
    ghost use Rattle.overlay_scan.specs.HeldEntries.{plain_sweep};

    ghost content = { plain_sweep I.whole };

    fn insert(&mut self, edge: IntLine<I>, value: V, x: I) -> Result<(), OverlayError>
        requires state { IsSweep I.limit (plain_sweep I.whole self.old) }
        requires moves { MayMoveTo (I.whole x) (plain_sweep I.whole self.old) }
        requires over { IsOver I.limit (I.whole x) (plain_line I.whole edge) }
        requires meets { MeetsOthers (plain_line I.whole edge)
            (live_at (I.whole x) (plain_sweep I.whole self.old).entries) }
        requires fresh { IsNewAmong (plain_line I.whole edge)
            (live_at (I.whole x) (plain_sweep I.whole self.old).entries) }
        ensures ok { OnOk result (IsPutIn (I.whole x) (record { edge = plain_line I.whole edge; value = value })
            (live_at (I.whole x) (plain_sweep I.whole self.old).entries) (plain_sweep I.whole self.new).entries) }
        ensures err { OnErr result
            (plain_sweep I.whole self.new ≡ moved_to (I.whole x) (plain_sweep I.whole self.old)) }
        ensures reached { (plain_sweep I.whole self.new).reached ≡ Some (I.whole x) }
        ensures state { IsSweep I.limit (plain_sweep I.whole self.new) }
        ensures only { IsOkUnless result OverlayError.Memory }
        ensures one_more { OnOk result (held_count self.new ≤ held_count self.old + 1) }
        ensures no_more { OnErr result (held_count self.new ≤ held_count self.old) }
    {
        let entry = live_edge(edge, value);
        let asked = entry;
        let order = |f: IntLine<I>| -> Ordering
            requires { IsComparable I.limit (plain_line I.whole f) (plain_entry I.whole asked).edge }
            ensures { not (is_gt result) ≡ is_lower (plain_line I.whole f) (plain_entry I.whole asked).edge }
        { order_at_start(f, &asked) };
        self.put_in(x, entry, &order)?;
        Ok(())
    }

    fn first_less(&mut self, x: I, default: V, edge: IntLine<I>) -> V
        requires state { IsSweep I.limit (plain_sweep I.whole self.old) }
        requires moves { MayMoveTo (I.whole x) (plain_sweep I.whole self.old) }
        requires asked { IsAsked I.limit (I.whole x) (plain_line I.whole edge) }
        requires meets { MeetsOthers (plain_line I.whole edge)
            (live_at (I.whole x) (plain_sweep I.whole self.old).entries) }
        ensures value { result ≡ value_below default (plain_line I.whole edge)
            (live_at (I.whole x) (plain_sweep I.whole self.old).entries) }
        ensures content { plain_sweep I.whole self.new ≡ moved_to (I.whole x) (plain_sweep I.whole self.old) }
        ensures state { IsSweep I.limit (plain_sweep I.whole self.new) }
        ensures no_more { held_count self.new ≤ held_count self.old }
    {
        let asked = live_edge(edge, default);
        let order = |f: IntLine<I>| -> Ordering
            requires { IsComparable I.limit (plain_line I.whole f) (plain_entry I.whole asked).edge }
            ensures { not (is_gt result) ≡ is_lower (plain_line I.whole f) (plain_entry I.whole asked).edge }
        { order_at_start(f, &asked) };
        let found = self.look_up_at(asked.a, x, &order);
        found.unwrap_or(default)
    }

    fn first_less_or_equal_by<F: Fn(IntLine<I>) -> Ordering + Drop>(
        &mut self,
        x: I,
        default: V,
        order: F,
    ) -> V
        requires state { IsSweep I.limit (plain_sweep I.whole self.old) }
        requires moves { MayMoveTo (I.whole x) (plain_sweep I.whole self.old) }
        requires callable { IsCallableOn I.whole (F.pre order)
            (live_at (I.whole x) (plain_sweep I.whole self.old).entries) }
        ensures value { (answer : _) → IsAnsweredBy I.whole (F.post order) answer
            (live_at (I.whole x) (plain_sweep I.whole self.old).entries)
            → AnswersRise answer (live_at (I.whole x) (plain_sweep I.whole self.old).entries)
            → result ≡ value_up_to default answer (live_at (I.whole x) (plain_sweep I.whole self.old).entries) }
        ensures content { plain_sweep I.whole self.new ≡ moved_to (I.whole x) (plain_sweep I.whole self.old) }
        ensures state { IsSweep I.limit (plain_sweep I.whole self.new) }
        ensures no_more { held_count self.new ≤ held_count self.old }
    {
        let value = self.look_up(x, &order);
        value.unwrap_or(default)
    }

    fn clear(&mut self) {
        self.live.clear();
        self.reached = None;
    }
}

/// Makes a live edge of a line and its value.
pub(crate) fn live_edge<I: IntNumber, V: Copy>(line: IntLine<I>, value: V) -> LiveEdge<I, V>
    ensures { plain_entry I.whole result ≡ record { edge = plain_line I.whole line; value = value } }
{
    let [a, b] = line;
    LiveEdge { a, b, value }
}

/// Returns whether the edge ends at or before x.
pub(crate) fn has_ended<I: IntNumber, V: Copy>(f: &LiveEdge<I, V>, x: I) -> bool
    ensures { result ≡ not (int_lt (I.whole x) (I.whole f.now.b.x)) }
{
    !x.compare(f.b.x).is_lt()
}

/// Returns `Less` for a line under the edge, else `Greater`.
pub(crate) fn order_to<I: IntNumber, V: Copy>(line: IntLine<I>, e: &LiveEdge<I, V>) -> Ordering
    requires one { IsInRange I.limit (plain_line I.whole line) }
    requires other { IsInRange I.limit (plain_entry I.whole e.now).edge }
    ensures { not (is_gt result) ≡ is_lower (plain_line I.whole line) (plain_entry I.whole e.now).edge }
{
    let f = live_edge(line, e.value);
    if is_under(&f, e) {
        Ordering::Less
    } else {
        Ordering::Greater
    }
}

/// Returns that order for a line that ends right of the start of the edge. It multiplies nothing where the line is over
/// that start, and both its ends are below the start, or both above.
pub(crate) fn order_at_start<I: IntNumber, V: Copy>(
    line: IntLine<I>,
    e: &LiveEdge<I, V>,
) -> Ordering
    requires { IsComparable I.limit (plain_line I.whole line) (plain_entry I.whole e.now).edge }
    ensures { not (is_gt result) ≡ is_lower (plain_line I.whole line) (plain_entry I.whole e.now).edge }
{
    let [a, b] = line;
    if e.a.x.compare(a.x).is_lt() {
        return order_to(line, e);
    }
    let starts_below = a.y.compare(e.a.y).is_lt();
    let ends_below = b.y.compare(e.a.y).is_lt();
    if starts_below != ends_below || a.y.compare(e.a.y).is_eq() {
        order_to(line, e)
    } else if starts_below {
        Ordering::Less
    } else {
        Ordering::Greater
    }
}

/// Returns whether f is under e, where both are over one x and meet in ends alone. It compares them at the start of the
/// edge that starts later. Where e is vertical and f is over its start, it returns whether f passes below that start or
/// starts there.
pub fn is_under<I: IntNumber, V: Copy>(f: &LiveEdge<I, V>, e: &LiveEdge<I, V>) -> bool
    requires one { IsInRange I.limit (plain_entry I.whole f.now).edge }
    requires other { IsInRange I.limit (plain_entry I.whole e.now).edge }
    ensures { result ≡ is_lower (plain_entry I.whole f.now).edge (plain_entry I.whole e.now).edge }
{
    if e.a.x.compare(f.a.x).is_lt() {
        !is_lower_at_start(e, f)
    } else {
        is_lower_at_start(f, e)
    }
}

// Returns whether f passes below the start of e, or starts there to the right of e.
fn is_lower_at_start<I: IntNumber, V: Copy>(f: &LiveEdge<I, V>, e: &LiveEdge<I, V>) -> bool
    requires one { IsInRange I.limit (plain_entry I.whole f.now).edge }
    requires other { IsInRange I.limit (plain_entry I.whole e.now).edge }
    ensures { result ≡ is_lower_at_start (plain_entry I.whole f.now).edge (plain_entry I.whole e.now).edge }
{
    let side = cross_at(f.a, f.b, e.a).sign();
    side.is_gt() || side.is_eq() && cross_at(e.a, f.b, e.b).sign().is_gt()
}
