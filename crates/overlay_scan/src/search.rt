//! Binary searches in a list in which some edges have ended.

ghost use Rattle.std.specs.Prelude.{◌≡◌, ◌-◌, ◌≤◌, ◌<◌, ◌∷◌, [], true, not, int_lt, length};
ghost use Rattle.std.specs.Prelude.{drop, get_or, IfSome, IsSome};
ghost use Rattle.std.specs.Ordering.{is_gt};
ghost use Rattle.std.specs.declared.cmp.Ordering.{Ordering};
ghost use Rattle.overlay_scan.specs.HeldEntries.{live_of};
ghost use Rattle.overlay_scan.specs.Scan.{IsCallableOn};
ghost use Rattle.overlay_scan.specs.Searches.{IsBetween};

use crate::list::{LiveEdge, has_ended};
use overlay_geom::number::IntNumber;
use overlay_geom::path::IntLine;
use std::cmp::Ordering;

// Number of ended entries below a place that are passed.
const FEW: usize = 8;

// The lowest and the highest place that a search still considers.
#[derive(Clone, Copy)]
struct Bounds {
    low: usize,
    high: usize,
}

/// Returns the place above the live entries for which the order does not answer `Greater`; the search begins at
/// `guess`. It returns `None` where more than `most` ended entries stand side by side.
pub fn search<I: IntNumber, V: Copy, F: Fn(IntLine<I>) -> Ordering>(
    entries: &[LiveEdge<I, V>],
    guess: usize,
    most: usize,
    x: I,
    order: &F,
) -> Option<usize>
    requires { IsCallableOn I.whole (F.pre order.now) (live_of I.whole (I.whole x) entries.now) }
    ensures found { IfSome result (λ n. IsBetween I.whole (F.post order.now) (I.whole x) entries.now n n) }
    ensures some { length entries.now ≤ most → IsSome result }
{
    let mut bounds = begun(entries, guess, most, x, order)?;
    while bounds.low < bounds.high {
        let middle = bounds.low + (bounds.high - bounds.low) / 2;
        bounds = narrowed(entries, bounds, middle, most, x, order)?;
    }
    Some(bounds.low)
}

// Returns the first bounds. Where the entry below the guess is live and passes, it also tests the next live entry.
fn begun<I: IntNumber, V: Copy, F: Fn(IntLine<I>) -> Ordering>(
    entries: &[LiveEdge<I, V>],
    guess: usize,
    most: usize,
    x: I,
    order: &F,
) -> Option<Bounds>
    requires { IsCallableOn I.whole (F.pre order.now) (live_of I.whole (I.whole x) entries.now) }
    ensures between { IfSome result
        (λ b. IsBetween I.whole (F.post order.now) (I.whole x) entries.now b.low b.high) }
    ensures some { length entries.now ≤ most → IsSome result }
{
    let bounds = guessed(entries, guess, x, order);
    if bounds.low == guess && guess < bounds.high {
        narrowed(entries, bounds, guess, most, x, order)
    } else {
        Some(bounds)
    }
}

// Returns the bounds that the entry below the guess gives, if it is live, else all places.
fn guessed<I: IntNumber, V: Copy, F: Fn(IntLine<I>) -> Ordering>(
    entries: &[LiveEdge<I, V>],
    guess: usize,
    x: I,
    order: &F,
) -> Bounds
    requires { IsCallableOn I.whole (F.pre order.now) (live_of I.whole (I.whole x) entries.now) }
    ensures { IsBetween I.whole (F.post order.now) (I.whole x) entries.now result.low result.high }
{
    let all = Bounds {
        low: 0,
        high: entries.len(),
    };
    if guess == 0 || all.high < guess {
        return all;
    }
    let f = &entries[guess - 1];
    if has_ended(f, x) {
        all
    } else if passes(order, f) {
        Bounds {
            low: guess,
            high: all.high,
        }
    } else {
        Bounds {
            low: 0,
            high: guess - 1,
        }
    }
}

// Returns the bounds below `middle`, or those above it, by the next live entry from `middle` on.
fn narrowed<I: IntNumber, V: Copy, F: Fn(IntLine<I>) -> Ordering>(
    entries: &[LiveEdge<I, V>],
    bounds: Bounds,
    middle: usize,
    most: usize,
    x: I,
    order: &F,
) -> Option<Bounds>
    requires between { IsBetween I.whole (F.post order.now) (I.whole x) entries.now bounds.low bounds.high }
    requires callable { IsCallableOn I.whole (F.pre order.now) (live_of I.whole (I.whole x) entries.now) }
    requires above { bounds.low ≤ middle }
    requires below { middle < bounds.high }
    ensures between { IfSome result
        (λ b. IsBetween I.whole (F.post order.now) (I.whole x) entries.now b.low b.high) }
    ensures smaller { IfSome result (λ b. b.high - b.low < bounds.high - bounds.low) }
    ensures some { length entries.now ≤ most → IsSome result }
{
    let k = next_live(entries, middle, bounds.high, x);
    if most < k - middle {
        return None;
    }
    if k < bounds.high && passes(order, &entries[k]) {
        Some(Bounds {
            low: k + 1,
            high: bounds.high,
        })
    } else {
        Some(Bounds {
            low: bounds.low,
            high: middle,
        })
    }
}

// Returns the first place in `from..to` whose entry is live, or `to` if there is none.
fn next_live<I: IntNumber, V: Copy>(
    entries: &[LiveEdge<I, V>],
    from: usize,
    to: usize,
    x: I,
) -> usize
    requires order { from ≤ to }
    requires within { to ≤ length entries.now }
    ensures from { from ≤ result }
    ensures to { result ≤ to }
    ensures ended { live_of I.whole (I.whole x) (drop from entries.now)
        ≡ live_of I.whole (I.whole x) (drop result entries.now) }
    ensures live { (f : LiveEdge I V) → result < to → f ≡ get_or entries.now result f
        → int_lt (I.whole x) (I.whole f.b.x) ≡ true }
{
    let mut k = from;
    while k < to && has_ended(&entries[k], x) {
        k += 1;
    }
    k
}

// Returns whether the order does not answer `Greater` for the entry's line.
fn passes<I: IntNumber, V: Copy, F: Fn(IntLine<I>) -> Ordering>(
    order: &F,
    f: &LiveEdge<I, V>,
) -> bool
    requires { F.pre order.now (f.now.a ∷ f.now.b ∷ []) }
    ensures { (o : Ordering) × F.post order.now (f.now.a ∷ f.now.b ∷ []) o × (result ≡ not (is_gt o)) }
{
    !order([f.a, f.b]).is_gt()
}

/// Returns the place above the next live entry below a place, or a place some steps below that.
pub(crate) fn above_live<I: IntNumber, V: Copy>(
    entries: &[LiveEdge<I, V>],
    place: usize,
    x: I,
) -> usize {
    let mut at = place.min(entries.len());
    let least = at.saturating_sub(FEW);
    while at > least && has_ended(&entries[at - 1], x) {
        at -= 1;
    }
    at
}
