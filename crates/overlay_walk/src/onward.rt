//! The places where the steps that leave the ends of steps begin, noted before the steps are walked.

ghost use Rattle.std.specs.Prelude.{◌≡◌, ◌<◌, ◌≤◌, length};

use crate::next::leaves_below;
use crate::step::{Step, is_forward};
use overlay_geom::number::IntNumber;
use overlay_geom::point::IntPoint;
use std::alloc::{AllocError, Allocator};

// Number of steps from which on places are noted.
const LEAST_STEPS: usize = 64;
// Note of a place that no note holds.
const NO_PLACE: u32 = u32::MAX;
// Factor by which each stretch of a search is longer than the stretch before.
const GROWTH: usize = 4;

/// Returns for each step the first place of the steps that leave its end, where it is found and a note holds it. The
/// steps are in the order of the points that they leave, and the places in the order of their edges' starts. No place
/// is noted of few steps.
pub(crate) fn onward_places<I: IntNumber, A: Allocator>(
    alloc: A,
    steps: &[Step<I>],
    places: &[usize],
) -> Result<Vec<u32, A>, AllocError> {
    let mut onward = Vec::new(alloc);
    if steps.len() >= LEAST_STEPS {
        onward.resize(steps.len(), 0)?;
        note_all(&mut onward, steps, places);
    }
    Ok(onward)
}

// Notes the first places of the steps that lead on, for the steps at these places in turn. The starts of their edges
// are in order, so that for steps back the place moves on. For a step forward it is looked for near that of the step
// forward before, or near the step itself if that leads straight up.
fn note_all<I: IntNumber>(onward: &mut [u32], steps: &[Step<I>], places: &[usize])
    requires each { length onward.old ≡ length steps.now }
{
    let mut back = 0;
    let mut ahead = 0;
    for place in places {
        if *place >= steps.len() {
            return;
        }
        let step = steps[*place];
        if !is_forward(&step) {
            back = first_behind(steps, back, step.to);
            onward[*place] = note_of(back);
        } else if stand_in_column(step.from, step.to) {
            onward[*place] = note_of(first_near(steps, *place, step.to));
        } else {
            ahead = first_near(steps, ahead, step.to);
            onward[*place] = note_of(ahead);
        }
    }
}

/// Returns the note of a place.
pub fn note_of(place: usize) -> u32 {
    if place < NO_PLACE as usize {
        place as u32
    } else {
        NO_PLACE
    }
}

// Returns whether two points have equal x-coordinates.
fn stand_in_column<I: IntNumber>(p: IntPoint<I>, q: IntPoint<I>) -> bool {
    p.x.compare(q.x).is_eq()
}

// Returns the first place from `low` on whose step leaves p or a greater point, or the number of steps.
fn first_behind<I: IntNumber>(steps: &[Step<I>], low: usize, p: IntPoint<I>) -> usize {
    let mut first = low;
    while first < steps.len() && leaves_below(steps, first, p) {
        first += 1;
    }
    first
}

/// Returns the first place whose step leaves p or a greater point, or the number of steps. The steps are in the order
/// of the points that they leave. The place is looked for near another one.
pub fn first_near<I: IntNumber>(steps: &[Step<I>], near: usize, p: IntPoint<I>) -> usize {
    if near < steps.len() && leaves_below(steps, near, p) {
        let (low, high) = stretch_behind(steps, near, p);
        first_between(steps, low, high, p)
    } else {
        let (low, high) = stretch_before(steps, near.min(steps.len()), p);
        first_between(steps, low, high, p)
    }
}

// Returns a stretch of places behind `low`, whose step leaves a point below p. It ends where a step leaves p or a
// greater point, or behind all steps.
fn stretch_behind<I: IntNumber>(steps: &[Step<I>], low: usize, p: IntPoint<I>) -> (usize, usize)
    requires within { low < length steps.now }
    ensures ordered { result.0 ≤ result.1 }
    ensures inside { result.1 ≤ length steps.now }
{
    let mut from = low;
    let mut stretch: usize = 1;
    while stretch < steps.len() - from && leaves_below(steps, from + stretch, p) {
        from += stretch;
        stretch = stretch.saturating_mul(GROWTH);
    }
    if stretch < steps.len() - from {
        (from + 1, from + stretch)
    } else {
        (from + 1, steps.len())
    }
}

// Returns a stretch of places up to `high`. It begins behind a step that leaves a point below p, or with the first
// step.
fn stretch_before<I: IntNumber>(steps: &[Step<I>], high: usize, p: IntPoint<I>) -> (usize, usize)
    requires within { high ≤ length steps.now }
    ensures ordered { result.0 ≤ result.1 }
    ensures inside { result.1 ≤ length steps.now }
{
    let mut to = high;
    let mut stretch: usize = 1;
    while stretch < to && !leaves_below(steps, to - stretch, p) {
        to -= stretch;
        stretch = stretch.saturating_mul(GROWTH);
    }
    if stretch < to {
        (to - stretch + 1, to)
    } else {
        (0, to)
    }
}

// Returns the first place of a stretch whose step leaves p or a greater point, or its end.
fn first_between<I: IntNumber>(steps: &[Step<I>], from: usize, to: usize, p: IntPoint<I>) -> usize
    requires ordered { from ≤ to }
    requires inside { to ≤ length steps.now }
{
    let mut low = from;
    let mut high = to;
    while low < high {
        let middle = low + (high - low) / 2;
        if leaves_below(steps, middle, p) {
            low = middle + 1;
        } else {
            high = middle;
        }
    }
    low
}

/// Returns the place noted for the step at a place, or a place behind all steps where none is noted.
pub fn noted(onward: &[u32], place: usize) -> usize {
    match onward.get(place) {
        Some(first) => *first as usize,
        None => usize::MAX,
    }
}
