//! Places in a list that are remembered by the points where the edges there end. They serve as guesses alone.

ghost use Rattle.std.specs.Prelude.{◌<◌};

use overlay_geom::number::IntNumber;
use overlay_geom::point::IntPoint;

// Number of slots, and a number that spreads points over them.
const SLOTS: usize = 2048;

const SPREAD: u64 = 0x9E37_79B9_7F4A_7C15;
// Number of places that a slot tells apart.
const PLACES: usize = 65536;

/// A slot for each of many points, with the place that was noted there last.
#[derive(Drop)]
pub(crate) struct EndPlaces {
    places: [u16; SLOTS],
}

impl EndPlaces {
    /// Makes a table in which each slot has place 0.
    pub(crate) fn new() -> Self {
        EndPlaces { places: [0; SLOTS] }
    }

    /// Notes a place for a point.
    pub(crate) fn note<I: IntNumber>(&mut self, v: IntPoint<I>, place: usize) {
        self.places[slot_of(v)] = (place % PLACES) as u16;
    }

    /// Returns the place that was noted last for the point, or for another point of its slot.
    pub(crate) fn noted<I: IntNumber>(&self, v: IntPoint<I>) -> usize {
        usize::from(self.places[slot_of(v)])
    }
}

// Returns the slot of a point.
fn slot_of<I: IntNumber>(v: IntPoint<I>) -> usize
    ensures { result < 2048 }
{
    let spread = v.x.distance(v.y).wrapping_mul(SPREAD);
    spread.wrapping_shr(32) as usize % SLOTS
}
