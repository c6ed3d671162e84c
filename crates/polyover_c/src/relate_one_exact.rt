//! Whether one relation of a subject and a clip holds, as they are given.

ghost use Rattle.std.specs.Prelude.{◌≡◌};
ghost use Rattle.polyover_calls.specs.Given.{contours_of};
ghost use Rattle.polyover_calls.specs.Statuses.{code_of};
ghost use Rattle.polyover_calls.specs.declared.status.Status.{Status};
ghost use Rattle.polyover_exact.specs.One.{RelatingOneExactlyEnds};

use polyover_calls::arrays::{Contours32, Contours64};
use polyover_exact::relate_one::{AskedRelation, relate_one_exactly};
use std::alloc::Global;

/// Writes 1 where the relation with the bit holds of the subject and the clip under the fill rule, else 0, and returns
/// the code of a status. Nothing is rounded.
#[unsafe(no_mangle)]
pub extern "C" fn polyover_relate_one_exact_with(
    alloc: Global,
    relation: u32,
    fill: u32,
    subject: &Contours64,
    clip: &Contours64,
    holds: &mut u32,
) -> u32
    ensures { (s : Status) × RelatingOneExactlyEnds (λ z. z) 4611686018427387903 relation fill
        (contours_of subject.now.coordinates.now subject.now.ends.now)
        (contours_of clip.now.coordinates.now clip.now.ends.now)
        holds.old holds.new s × (result ≡ code_of s) }
{
    let asked = AskedRelation {
        relation,
        fill,
        subject: subject.given(),
        clip: clip.given(),
    };
    relate_one_exactly(alloc, &asked, holds).code()
}

/// `polyover_relate_one_exact_with` at 32 bits.
#[unsafe(no_mangle)]
pub extern "C" fn polyover_relate_one_exact_with_32(
    alloc: Global,
    relation: u32,
    fill: u32,
    subject: &Contours32,
    clip: &Contours32,
    holds: &mut u32,
) -> u32
    ensures { (s : Status) × RelatingOneExactlyEnds (λ z. z) 1073741823 relation fill
        (contours_of subject.now.coordinates.now subject.now.ends.now)
        (contours_of clip.now.coordinates.now clip.now.ends.now)
        holds.old holds.new s × (result ≡ code_of s) }
{
    let asked = AskedRelation {
        relation,
        fill,
        subject: subject.given(),
        clip: clip.given(),
    };
    relate_one_exactly(alloc, &asked, holds).code()
}
