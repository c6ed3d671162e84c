//! Shapes with the filled sides of each step in memory that a call hands out.

ghost use Rattle.std.specs.Prelude.{◌≡◌};
ghost use Rattle.polyover_calls.specs.Held.{AreHeld, arrays_at_32, arrays_at_64, no_arrays};
ghost use Rattle.polyover_calls.specs.Statuses.{code_of};
ghost use Rattle.polyover_vectors.specs.Flattened.{vector_arrays};
ghost use Rattle.polyover_vectors.specs.Held.{arrays_of};

use crate::flat::FlatVectors;
use polyover_calls::held::{Held32, Held64, lasting};
use polyover_calls::status::Status;

/// What a result holds.
#[derive(Clone, Copy)]
pub struct Vectors<'a, I> {
    pub(crate) coordinates: &'a [I],
    pub(crate) contour_ends: &'a [usize],
    pub(crate) shape_ends: &'a [usize],
    pub(crate) fills: &'a [u8],
}

/// What a call hands out, and how it ends.
#[derive(Clone, Copy)]
pub struct Outcome<'a, I> {
    pub(crate) vectors: Vectors<'a, I>,
    pub(crate) status: Status,
}

/// Returns the arrays in memory that stays.
pub(crate) fn hold<'a, I: Drop + 'a>(flat: FlatVectors<I>) -> Outcome<'a, I>
    ensures { AreHeld (λ arrays. arrays)
        (vector_arrays flat.coordinates.items flat.contour_ends.items flat.shape_ends.items flat.fills.items)
        no_arrays (arrays_of result.vectors) result.status }
{
    let vectors = Vectors {
        coordinates: lasting(flat.coordinates),
        contour_ends: lasting(flat.contour_ends),
        shape_ends: lasting(flat.shape_ends),
        fills: lasting(flat.fills),
    };
    Outcome {
        vectors,
        status: Status::Done,
    }
}

/// Returns empty arrays, and the status.
pub(crate) fn hold_nothing<'a, I: 'a>(status: Status) -> Outcome<'a, I>
    ensures held { arrays_of result.vectors ≡ no_arrays }
    ensures status { result.status ≡ status }
{
    let vectors = Vectors {
        coordinates: &[],
        contour_ends: &[],
        shape_ends: &[],
        fills: &[],
    };
    Outcome { vectors, status }
}

/// Gives C the arrays, and returns the code of the status.
pub fn give<'a>(outcome: &Outcome<'a, i64>, held: &mut Held64<'a>) -> u32
    ensures held { arrays_at_64 held.new ≡ arrays_of outcome.now.vectors }
    ensures code { result ≡ code_of outcome.now.status }
{
    let vectors = outcome.vectors;
    *held = Held64 {
        coordinates: vectors.coordinates,
        contour_ends: vectors.contour_ends,
        shape_ends: vectors.shape_ends,
        links: &[],
        fills: vectors.fills,
    };
    outcome.status.code()
}

/// `give` at 32 bits.
pub fn give_32<'a>(outcome: &Outcome<'a, i32>, held: &mut Held32<'a>) -> u32
    ensures held { arrays_at_32 held.new ≡ arrays_of outcome.now.vectors }
    ensures code { result ≡ code_of outcome.now.status }
{
    let vectors = outcome.vectors;
    *held = Held32 {
        coordinates: vectors.coordinates,
        contour_ends: vectors.contour_ends,
        shape_ends: vectors.shape_ends,
        links: &[],
        fills: vectors.fills,
    };
    outcome.status.code()
}
