//! How a subject and a clip lie to each other as they are given.

ghost use Rattle.std.specs.Prelude.{◌≡◌};
ghost use Rattle.polyover_calls.specs.Given.{contours_of};
ghost use Rattle.polyover_calls.specs.Statuses.{code_of};
ghost use Rattle.polyover_calls.specs.declared.status.Status.{Status};
ghost use Rattle.polyover_exact.specs.Exact.{ExactlyRelatingEnds};

use polyover_calls::arrays::{Contours32, Contours64};
use polyover_exact::relate::relate_exactly;
use std::alloc::Global;

/// Writes how the subject and the clip lie to each other under the fill rule, as a bit for each relation that holds,
/// and returns the code of a status. Nothing is rounded.
#[unsafe(no_mangle)]
pub extern "C" fn polyover_relate_exact_with(
    alloc: Global,
    fill: u32,
    subject: &Contours64,
    clip: &Contours64,
    relations: &mut u32,
) -> u32
    ensures { (s : Status) × ExactlyRelatingEnds (λ z. z) 4611686018427387903 fill
        (contours_of subject.now.coordinates.now subject.now.ends.now)
        (contours_of clip.now.coordinates.now clip.now.ends.now)
        relations.old relations.new s × (result ≡ code_of s) }
{
    relate_exactly(alloc, fill, &subject.given(), &clip.given(), relations).code()
}

/// `polyover_relate_exact_with` at 32 bits.
#[unsafe(no_mangle)]
pub extern "C" fn polyover_relate_exact_with_32(
    alloc: Global,
    fill: u32,
    subject: &Contours32,
    clip: &Contours32,
    relations: &mut u32,
) -> u32
    ensures { (s : Status) × ExactlyRelatingEnds (λ z. z) 1073741823 fill
        (contours_of subject.now.coordinates.now subject.now.ends.now)
        (contours_of clip.now.coordinates.now clip.now.ends.now)
        relations.old relations.new s × (result ≡ code_of s) }
{
    relate_exactly(alloc, fill, &subject.given(), &clip.given(), relations).code()
}
