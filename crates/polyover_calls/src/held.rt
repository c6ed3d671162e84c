//! Answers in memory that a call hands out.

ghost use Rattle.std.specs.Prelude.{◌≡◌, [], ◌≢◌};
ghost use Rattle.polyover_calls.specs.Held.{AreHeld, arrays_at_32, arrays_at_64, arrays_of, no_arrays};
ghost use Rattle.polyover_calls.specs.Held.{edge_arrays, linked_arrays, path_arrays, shape_arrays};
ghost use Rattle.polyover_calls.specs.Linked.{flat_linked};
ghost use Rattle.polyover_calls.specs.Listed.{flat_edges};
ghost use Rattle.polyover_calls.specs.Statuses.{code_of};
ghost use Rattle.polyover_calls.specs.Written.{flat_shapes};
ghost use Rattle.polyover_calls.specs.WrittenPaths.{flat_paths};

use crate::answer::Answer;
use crate::edges::ListedEdges;
use crate::linked_answer::LinkedAnswer;
use crate::links::Link;
use crate::path_answer::PathAnswer;
use crate::status::Status;
use std::alloc::Global;

/// What a result holds. An array that has no part in the answer is empty.
#[derive(Clone, Copy)]
pub struct Held<'a, I> {
    pub(crate) coordinates: &'a [I],
    pub(crate) contour_ends: &'a [usize],
    pub(crate) shape_ends: &'a [usize],
    pub(crate) links: &'a [Link],
    pub(crate) fills: &'a [u8],
}

/// What C is given of 64-bit coordinates. Each array with items lies in a block of its own, which C frees.
#[repr(C)]
#[derive(Clone, Copy)]
pub struct Held64<'a> {
    /// The coordinates, x before y.
    pub coordinates: &'a [i64],
    /// How many points there are up to the end of each contour, or of each path.
    pub contour_ends: &'a [usize],
    /// How many contours there are up to the end of each shape.
    pub shape_ends: &'a [usize],
    /// Which shapes lie in which holes.
    pub links: &'a [Link],
    /// The fill bits of each edge.
    pub fills: &'a [u8],
}

/// The same of 32-bit coordinates.
#[repr(C)]
#[derive(Clone, Copy)]
pub struct Held32<'a> {
    /// The coordinates, x before y.
    pub coordinates: &'a [i32],
    /// How many points there are up to the end of each contour, or of each path.
    pub contour_ends: &'a [usize],
    /// How many contours there are up to the end of each shape.
    pub shape_ends: &'a [usize],
    /// Which shapes lie in which holes.
    pub links: &'a [Link],
    /// The fill bits of each edge.
    pub fills: &'a [u8],
}

/// What a call hands out, and how it ends.
#[derive(Clone, Copy)]
pub struct HeldOutcome<'a, I> {
    pub(crate) held: Held<'a, I>,
    pub(crate) status: Status,
}

/// Returns the arrays of shapes in memory that stays.
pub fn hold_shapes<'a, I: Drop + 'a>(answer: Answer<I>) -> HeldOutcome<'a, I>
    ensures { AreHeld shape_arrays
        (flat_shapes answer.coordinates.items answer.contour_ends.items answer.shape_ends.items)
        no_arrays (arrays_of result.held) result.status }
{
    let held = Held {
        coordinates: lasting(answer.coordinates),
        contour_ends: lasting(answer.contour_ends),
        shape_ends: lasting(answer.shape_ends),
        links: &[],
        fills: &[],
    };
    HeldOutcome {
        held,
        status: Status::Done,
    }
}

/// Returns the arrays of shapes and of links in memory that stays.
pub fn hold_linked<'a, I: Drop + 'a>(answer: LinkedAnswer<I>) -> HeldOutcome<'a, I>
    ensures { AreHeld linked_arrays
        (flat_linked answer.shapes.coordinates.items answer.shapes.contour_ends.items
        answer.shapes.shape_ends.items answer.links.items)
        no_arrays (arrays_of result.held) result.status }
{
    let shapes = answer.shapes;
    let held = Held {
        coordinates: lasting(shapes.coordinates),
        contour_ends: lasting(shapes.contour_ends),
        shape_ends: lasting(shapes.shape_ends),
        links: lasting(answer.links),
        fills: &[],
    };
    HeldOutcome {
        held,
        status: Status::Done,
    }
}

/// Returns the arrays of paths in memory that stays.
pub(crate) fn hold_paths<'a, I: Drop + 'a>(answer: PathAnswer<I>) -> HeldOutcome<'a, I>
    ensures { AreHeld path_arrays (flat_paths answer.coordinates.items answer.ends.items)
        no_arrays (arrays_of result.held) result.status }
{
    let held = Held {
        coordinates: lasting(answer.coordinates),
        contour_ends: lasting(answer.ends),
        shape_ends: &[],
        links: &[],
        fills: &[],
    };
    HeldOutcome {
        held,
        status: Status::Done,
    }
}

/// Returns the arrays of edges in memory that stays.
pub fn hold_edges<'a, I: Drop + 'a>(answer: ListedEdges<I>) -> HeldOutcome<'a, I>
    ensures { AreHeld edge_arrays (flat_edges answer.coordinates.items answer.fills.items)
        no_arrays (arrays_of result.held) result.status }
{
    let held = Held {
        coordinates: lasting(answer.coordinates),
        contour_ends: &[],
        shape_ends: &[],
        links: &[],
        fills: lasting(answer.fills),
    };
    HeldOutcome {
        held,
        status: Status::Done,
    }
}

/// Returns empty arrays, and the status.
pub fn hold_nothing<'a, I: 'a>(status: Status) -> HeldOutcome<'a, I>
    ensures held { arrays_of result.held ≡ no_arrays }
    ensures status { result.status ≡ status }
{
    let held = Held {
        coordinates: &[],
        contour_ends: &[],
        shape_ends: &[],
        links: &[],
        fills: &[],
    };
    HeldOutcome { held, status }
}

/// Returns the items in memory that stays, or no memory where there are none.
pub fn lasting<'a, T: Drop + 'a>(items: Vec<T, Global>) -> &'a [T]
    ensures { result.now ≡ items.items }
{
    if items.is_empty() {
        return &[];
    }
    &*items.leak()
}

impl<'a> Held64<'a> {
    /// Gives C the arrays, and returns the code of the status.
    pub fn give(&mut self, outcome: &HeldOutcome<'a, i64>) -> u32
        ensures held { arrays_at_64 self.new ≡ arrays_of outcome.now.held }
        ensures code { result ≡ code_of outcome.now.status }
    {
        let held = outcome.held;
        *self = Held64 {
            coordinates: held.coordinates,
            contour_ends: held.contour_ends,
            shape_ends: held.shape_ends,
            links: held.links,
            fills: held.fills,
        };
        outcome.status.code()
    }
}

impl<'a> Held32<'a> {
    /// Gives C the arrays, and returns the code of the status.
    pub fn give(&mut self, outcome: &HeldOutcome<'a, i32>) -> u32
        ensures held { arrays_at_32 self.new ≡ arrays_of outcome.now.held }
        ensures code { result ≡ code_of outcome.now.status }
    {
        let held = outcome.held;
        *self = Held32 {
            coordinates: held.coordinates,
            contour_ends: held.contour_ends,
            shape_ends: held.shape_ends,
            links: held.links,
            fills: held.fills,
        };
        outcome.status.code()
    }
}
