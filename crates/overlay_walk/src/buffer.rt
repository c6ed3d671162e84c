//! Memory that extractions use again.

ghost use Rattle.std.specs.Prelude.{◌≡◌, [], None};

use crate::step::Step;
use overlay_geom::number::IntNumber;
use std::alloc::{AllocError, Allocator};
use std::marker::Model;
use std::mem;

/// Memory for an extraction of contours, to be used again. It holds no step, so it changes no answer.
#[derive(Drop)]
pub struct BooleanExtractionBuffer<I: IntNumber, A: Allocator> {
    // without items
    room: Vec<Step<I>, A>,
}

impl<I: IntNumber, A: Allocator> Model for BooleanExtractionBuffer<I, A> {
    ghost use Rattle.std.specs.Prelude.{◌≡◌, []};

    ghost Value = { Unit {0} };

    ghost view = { λ b. tt };

    ghost invariant = { λ b. b.room.items ≡ [] };
}

impl<I: IntNumber, A: Allocator> BooleanExtractionBuffer<I, A> {
    /// Makes an empty buffer. It takes no memory.
    pub fn default(alloc: A) -> Self {
        BooleanExtractionBuffer {
            room: Vec::new(alloc),
        }
    }

    /// Takes the memory, as a list without steps, and leaves the buffer without any.
    pub fn take_room(&mut self, alloc: A) -> Vec<Step<I>, A>
        ensures { result.items ≡ [] }
    {
        mem::replace(&mut self.room, Vec::new(alloc))
    }

    /// Stores the memory of a list in the buffer, and drops its steps.
    pub fn put_room(&mut self, mut room: Vec<Step<I>, A>) {
        room.clear();
        self.room = room;
    }
}

impl<I: IntNumber, A: Allocator + Clone> BooleanExtractionBuffer<I, A> {
    /// Takes the buffer out of the slot, or makes an empty buffer if there is none. The slot is empty afterwards. Only
    /// cloning the allocator can refuse.
    pub fn taken_from(slot: &mut Option<Self>, alloc: &A) -> Result<Self, AllocError>
        ensures none { slot.new ≡ None }
    {
        match slot.take() {
            Some(buffer) => Ok(buffer),
            None => Ok(BooleanExtractionBuffer::default(alloc.clone()?)),
        }
    }
}
