//! How a subject and a clip lie to each other.

ghost use Rattle.std.specs.Prelude.{◌≡◌};
ghost use Rattle.polyover_calls.specs.Given.{contours_of};
ghost use Rattle.polyover_calls.specs.Related.{RelatingEnds};
ghost use Rattle.polyover_calls.specs.RelatedOne.{RelatingOneEnds};
ghost use Rattle.polyover_calls.specs.Statuses.{code_of};
ghost use Rattle.polyover_calls.specs.declared.status.Status.{Status};

use polyover_calls::arrays::{Contours32, Contours64};
use polyover_calls::relate::relate_arrays;
use polyover_calls::relate_one::relate_one;
use std::alloc::Global;

/// How the subject and the clip lie to each other under the fill rule, written as a bit for each relation that holds:
/// the code of a status.
#[unsafe(no_mangle)]
pub extern "C" fn polyover_relate_with(
    alloc: Global,
    fill: u32,
    solver: u32,
    subject: &Contours64,
    clip: &Contours64,
    relations: &mut u32,
) -> u32
    ensures { (s : Status) × RelatingEnds (λ z. z) 4611686018427387903 fill solver
        (contours_of subject.now.coordinates.now subject.now.ends.now)
        (contours_of clip.now.coordinates.now clip.now.ends.now)
        relations.old relations.new s × (result ≡ code_of s) }
{
    relate_arrays(
        alloc,
        fill,
        solver,
        &subject.given(),
        &clip.given(),
        relations,
    )
    .code()
}

/// `polyover_relate_with` at 32 bits.
#[unsafe(no_mangle)]
pub extern "C" fn polyover_relate_with_32(
    alloc: Global,
    fill: u32,
    solver: u32,
    subject: &Contours32,
    clip: &Contours32,
    relations: &mut u32,
) -> u32
    ensures { (s : Status) × RelatingEnds (λ z. z) 1073741823 fill solver
        (contours_of subject.now.coordinates.now subject.now.ends.now)
        (contours_of clip.now.coordinates.now clip.now.ends.now)
        relations.old relations.new s × (result ≡ code_of s) }
{
    relate_arrays(
        alloc,
        fill,
        solver,
        &subject.given(),
        &clip.given(),
        relations,
    )
    .code()
}

/// Whether the relation with the bit holds of the subject and the clip under the fill rule, written as 1 or 0: the code
/// of a status.
#[unsafe(no_mangle)]
pub extern "C" fn polyover_relate_one_with(
    alloc: Global,
    relation: u32,
    fill: u32,
    solver: u32,
    subject: &Contours64,
    clip: &Contours64,
    holds: &mut u32,
) -> u32
    ensures { (s : Status) × RelatingOneEnds (λ z. z) 4611686018427387903 relation fill solver
        (contours_of subject.now.coordinates.now subject.now.ends.now)
        (contours_of clip.now.coordinates.now clip.now.ends.now)
        holds.old holds.new s × (result ≡ code_of s) }
{
    relate_one(
        alloc,
        relation,
        fill,
        solver,
        &subject.given(),
        &clip.given(),
        holds,
    )
    .code()
}

/// `polyover_relate_one_with` at 32 bits.
#[unsafe(no_mangle)]
pub extern "C" fn polyover_relate_one_with_32(
    alloc: Global,
    relation: u32,
    fill: u32,
    solver: u32,
    subject: &Contours32,
    clip: &Contours32,
    holds: &mut u32,
) -> u32
    ensures { (s : Status) × RelatingOneEnds (λ z. z) 1073741823 relation fill solver
        (contours_of subject.now.coordinates.now subject.now.ends.now)
        (contours_of clip.now.coordinates.now clip.now.ends.now)
        holds.old holds.new s × (result ≡ code_of s) }
{
    relate_one(
        alloc,
        relation,
        fill,
        solver,
        &subject.given(),
        &clip.given(),
        holds,
    )
    .code()
}
