//! Live edges in a list that may still hold ended edges.

ghost use Rattle.std.specs.Prelude.{◌≡◌, ◌≤◌, ◌+◌, [], ◌∷◌, ◌++◌, true, take, drop, filter, int_lt, length};
ghost use Rattle.std.specs.Prelude.{None, OnOk, OnErr, option_map};
ghost use Rattle.std.specs.List.{last_or};
ghost use Rattle.overlay_scan.specs.HeldEntries.{live_of};
ghost use Rattle.overlay_scan.specs.Lists.{plain_entry};
ghost use Rattle.overlay_scan.specs.Scan.{IsCallableOn};
ghost use Rattle.overlay_scan.specs.Searches.{IsBetween};

use crate::ends::EndPlaces;
use crate::list::{LiveEdge, has_ended};
use crate::search::{above_live, search};
use overlay_geom::edge_pair::is_same;
use overlay_geom::number::IntNumber;
use overlay_geom::path::IntLine;
use overlay_geom::point::IntPoint;
use std::alloc::{AllocError, Allocator};
use std::cmp::Ordering;
use std::marker::Model;

// Greatest number of ended edges side by side that a search passes.
const MOST_ENDED: usize = 8;
// Number of edges that may be inserted, beyond the count of live edges, before the ended edges are dropped.
const SPARE: usize = 16;

/// Edges from bottom to top, some of them perhaps ended. An edge inserted at the place of an ended edge replaces it.
/// Ended edges are dropped where many of them stand side by side. They are also dropped after a number of inserts that
/// grows with the number of live edges.
#[derive(Drop)]
pub struct LiveEdges<I: IntNumber, V: Copy, A: Allocator> {
    // from bottom to top
    entries: Vec<LiveEdge<I, V>, A>,
    // the expected end of the next search: the end of the last search, the place above the last inserted edge, or that
    // of an edge which ends at the point that is looked for
    guess: usize,
    // number of inserts left before the ended edges are dropped
    spare: usize,
    // the places where edges were inserted, by their ends
    ends: EndPlaces,
}

impl<I: IntNumber, V: Copy, A: Allocator> Model for LiveEdges<I, V, A> {
    ghost use Rattle.std.specs.Prelude.{List};
    ghost use Rattle.overlay_scan.specs.declared.list.LiveEdge.{LiveEdge};

    ghost Value = { List (LiveEdge I V) };

    ghost view = { λ l. l.entries.items };
}

impl<I: IntNumber, V: Copy, A: Allocator> LiveEdges<I, V, A> {
    /// Makes a list without edges. It takes no memory.
    pub fn new(alloc: A) -> Self
        ensures { result ≡ [] }
    {
        LiveEdges {
            entries: Vec::new(alloc),
            guess: 0,
            spare: SPARE,
            ends: EndPlaces::new(),
        }
    }

    /// Returns the number of edges, ended ones too.
    pub fn len(&self) -> usize
        ensures { result ≡ length self.now }
    {
        self.entries.len()
    }

    /// Returns the edges from bottom to top, ended ones too.
    pub fn as_slice(&self) -> &[LiveEdge<I, V>]
        ensures { result.now ≡ self.now }
    {
        &self.entries
    }

    /// Returns the allocator of the edges.
    pub fn allocator(&self) -> &A {
        self.entries.allocator()
    }

    /// Lets the next search, at x, begin at an edge that ends at the point, where the place of one is remembered.
    pub(crate) fn aim_at(&mut self, v: IntPoint<I>, x: I)
        ensures { self.new ≡ self.old }
    {
        let place = self.ends.noted(v);
        if place < self.entries.len() && is_same(self.entries[place].b, v) {
            self.guess = above_live(&self.entries, place, x);
        }
    }

    /// Returns the place above the edges live at x for which the order does not answer `Greater`. It may drop ended
    /// edges.
    pub fn find<F: Fn(IntLine<I>) -> Ordering>(&mut self, x: I, order: &F) -> usize
        requires { IsCallableOn I.whole (F.pre order.now) (live_of I.whole (I.whole x) self.old) }
        ensures kept { live_of I.whole (I.whole x) self.new ≡ live_of I.whole (I.whole x) self.old }
        ensures found { IsBetween I.whole (F.post order.now) (I.whole x) self.new result result }
        ensures no_more { length self.new ≤ length self.old }
    {
        let place = match search(&self.entries, self.guess, MOST_ENDED, x, order) {
            Some(place) => place,
            None => self.find_among_live(x, order),
        };
        self.guess = place;
        place
    }

    // Returns that place after it has dropped the ended edges.
    fn find_among_live<F: Fn(IntLine<I>) -> Ordering>(&mut self, x: I, order: &F) -> usize
        requires { IsCallableOn I.whole (F.pre order.now) (live_of I.whole (I.whole x) self.old) }
        ensures kept { live_of I.whole (I.whole x) self.new ≡ live_of I.whole (I.whole x) self.old }
        ensures found { IsBetween I.whole (F.post order.now) (I.whole x) self.new result result }
        ensures no_more { length self.new ≤ length self.old }
    {
        self.drop_ended(x);
        match search(&self.entries, 0, self.entries.len(), x, order) {
            Some(place) => place,
            None => 0,
        }
    }

    /// Returns the value of the edge below a place, if there is one.
    pub fn value_below(&self, place: usize) -> Option<V>
        requires { place ≤ length self.now }
        ensures { result ≡ option_map (λ f. f.value) (last_or None (take place self.now)) }
    {
        if place == 0 {
            None
        } else {
            Some(self.entries[place - 1].value)
        }
    }

    /// Inserts an edge that is live at x at a place, and may drop ended edges. After a refusal, the edges are as they
    /// were.
    pub fn put(&mut self, place: usize, edge: LiveEdge<I, V>, x: I) -> Result<(), AllocError>
        requires within { place ≤ length self.old }
        requires live { int_lt (I.whole x) (I.whole edge.b.x) ≡ true }
        ensures ok { OnOk result (live_of I.whole (I.whole x) self.new ≡ live_of I.whole (I.whole x)
            (take place self.old) ++ plain_entry I.whole edge ∷ live_of I.whole (I.whole x) (drop place self.old)) }
        ensures one_more { OnOk result (length self.new ≤ length self.old + 1) }
        ensures err { OnErr result (self.new ≡ self.old) }
    {
        self.guess = place.saturating_add(1);
        if place < self.entries.len() && has_ended(&self.entries[place], x) {
            self.entries[place] = edge;
            self.ends.note(edge.b, place);
            return Ok(());
        }
        self.insert(place, edge, x)
    }

    // Inserts an edge between the edges at a place, and drops ended edges where it is time.
    fn insert(&mut self, place: usize, edge: LiveEdge<I, V>, x: I) -> Result<(), AllocError>
        requires within { place ≤ length self.old }
        requires live { int_lt (I.whole x) (I.whole edge.b.x) ≡ true }
        ensures ok { OnOk result (live_of I.whole (I.whole x) self.new ≡ live_of I.whole (I.whole x)
            (take place self.old) ++ plain_entry I.whole edge ∷ live_of I.whole (I.whole x) (drop place self.old)) }
        ensures one_more { OnOk result (length self.new ≤ length self.old + 1) }
        ensures err { OnErr result (self.new ≡ self.old) }
    {
        self.entries.insert(place, edge)?;
        self.ends.note(edge.b, place);
        if self.spare == 0 {
            self.drop_ended(x);
        } else {
            self.spare -= 1;
        }
        Ok(())
    }

    /// Drops the edges that end at or before x.
    pub fn drop_ended(&mut self, x: I)
        ensures { self.new ≡ filter (λ f. int_lt (I.whole x) (I.whole f.b.x)) self.old }
    {
        self.entries.retain(|f| x.compare(f.b.x).is_lt());
        self.spare = self.entries.len().saturating_add(SPARE);
    }

    /// Drops all edges.
    pub fn clear(&mut self)
        ensures { self.new ≡ [] }
    {
        self.entries.clear();
        self.guess = 0;
        self.spare = SPARE;
    }
}
