//! Traced edges in memory that a call hands out.

ghost use Rattle.std.specs.Prelude.{◌≡◌};
ghost use Rattle.overlay_traced.specs.Told.{traced_arrays};
ghost use Rattle.polyover_calls.specs.Statuses.{code_of};
ghost use Rattle.polyover_traced.specs.Held.{IsHeldTrace, arrays_at_32, arrays_at_64, arrays_of, no_arrays};

use overlay_traced::source::Source;
use overlay_traced::told::TracedEdges;
use polyover_calls::held::lasting;
use polyover_calls::status::Status;

/// What a result holds.
#[derive(Clone, Copy)]
pub struct Traced<'a, I> {
    pub(crate) coordinates: &'a [I],
    pub(crate) fills: &'a [u8],
    pub(crate) source_ends: &'a [usize],
    pub(crate) sources: &'a [Source],
}

/// What C is given of 64-bit coordinates. Each array with items lies in a block of its own, which C frees.
#[repr(C)]
#[derive(Clone, Copy)]
pub struct Traced64<'a> {
    /// The coordinates of both ends of each edge, x before y.
    pub coordinates: &'a [i64],
    /// The fill bits of each edge.
    pub fills: &'a [u8],
    /// How many sources there are up to the end of each edge.
    pub source_ends: &'a [usize],
    /// The given edges from which the edges come.
    pub sources: &'a [Source],
}

/// The same of 32-bit coordinates.
#[repr(C)]
#[derive(Clone, Copy)]
pub struct Traced32<'a> {
    /// The coordinates of both ends of each edge, x before y.
    pub coordinates: &'a [i32],
    /// The fill bits of each edge.
    pub fills: &'a [u8],
    /// How many sources there are up to the end of each edge.
    pub source_ends: &'a [usize],
    /// The given edges from which the edges come.
    pub sources: &'a [Source],
}

/// What a call hands out, and how it ends.
#[derive(Clone, Copy)]
pub struct Outcome<'a, I> {
    pub(crate) traced: Traced<'a, I>,
    pub(crate) status: Status,
}

/// Returns the arrays in memory that stays.
pub(crate) fn hold<'a, I: Drop + 'a>(edges: TracedEdges<I>) -> Outcome<'a, I>
    ensures { IsHeldTrace
        (traced_arrays edges.coordinates.items edges.fills.items edges.source_ends.items edges.sources.items)
        no_arrays (arrays_of result.traced) result.status }
{
    let traced = Traced {
        coordinates: lasting(edges.coordinates),
        fills: lasting(edges.fills),
        source_ends: lasting(edges.source_ends),
        sources: lasting(edges.sources),
    };
    Outcome {
        traced,
        status: Status::Done,
    }
}

/// Returns empty arrays, and the status.
pub(crate) fn hold_nothing<'a, I: 'a>(status: Status) -> Outcome<'a, I>
    ensures held { arrays_of result.traced ≡ no_arrays }
    ensures status { result.status ≡ status }
{
    let traced = Traced {
        coordinates: &[],
        fills: &[],
        source_ends: &[],
        sources: &[],
    };
    Outcome { traced, status }
}

impl<'a> Traced64<'a> {
    /// Gives C the arrays, and returns the code of the status.
    pub fn give(&mut self, outcome: &Outcome<'a, i64>) -> u32
        ensures held { arrays_at_64 self.new ≡ arrays_of outcome.now.traced }
        ensures code { result ≡ code_of outcome.now.status }
    {
        let traced = outcome.traced;
        *self = Traced64 {
            coordinates: traced.coordinates,
            fills: traced.fills,
            source_ends: traced.source_ends,
            sources: traced.sources,
        };
        outcome.status.code()
    }
}

impl<'a> Traced32<'a> {
    /// Gives C the arrays, and returns the code of the status.
    pub fn give(&mut self, outcome: &Outcome<'a, i32>) -> u32
        ensures held { arrays_at_32 self.new ≡ arrays_of outcome.now.traced }
        ensures code { result ≡ code_of outcome.now.status }
    {
        let traced = outcome.traced;
        *self = Traced32 {
            coordinates: traced.coordinates,
            fills: traced.fills,
            source_ends: traced.source_ends,
            sources: traced.sources,
        };
        outcome.status.code()
    }
}
