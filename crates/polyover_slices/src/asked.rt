//! Slices that options ask for, handed out.

ghost use Rattle.std.specs.Prelude.{MatchResult};
ghost use Rattle.polyover_calls.specs.Given.{contours_of};
ghost use Rattle.polyover_calls.specs.Held.{arrays_of};
ghost use Rattle.polyover_calls.specs.Written.{IsFlat, flat_shapes};
ghost use Rattle.polyover_slices.specs.Asked.{AreSlicesAsAsked, AskedSlicesAreHeld, IsAskedSlicingRefused};

use crate::shapes::sliced_shapes;
use overlay_geom::integer::OverlayInt;
use polyover_calls::answer::{Answer, flattened};
use polyover_calls::given::{Contours, read_both};
use polyover_calls::held::{HeldOutcome, hold_nothing, hold_shapes};
use polyover_calls::numbers::{OptionNumbers, fill_of, known_solver, options_of};
use polyover_calls::status::Status;
use std::alloc::Global;

/// The shapes into which the lines, which are open paths, slice the subject, as the numbers ask for.
#[tactic(auto, using(polyover_calls::proofs::Endings::put_ends, polyover_calls::proofs::Endings::refused_ends))]
pub fn asked_slices_held<'a, I: OverlayInt + 'a>(
    alloc: Global,
    fill: u32,
    options: OptionNumbers<I::WideUInt>,
    subject: &Contours<I>,
    lines: &Contours<I>,
) -> HeldOutcome<'a, I>
    ensures { AskedSlicesAreHeld I.whole I.limit I.Wide.width I.WideUInt.natural fill options
        (contours_of subject.now.coordinates.now subject.now.ends.now)
        (contours_of lines.now.coordinates.now lines.now.ends.now)
        (arrays_of result.held) result.status }
{
    match asked_slices(alloc, fill, options, subject, lines) {
        Ok(answer) => hold_shapes(answer),
        Err(status) => hold_nothing(status),
    }
}

// The shapes as arrays, or why there are none.
#[tactic(auto, using(crate::proofs::Asking::contours_unsliced, crate::proofs::Asking::memory_refused, crate::proofs::Asking::slicing_refused, crate::proofs::Asking::subject_sliced))]
fn asked_slices<I: OverlayInt>(
    alloc: Global,
    fill: u32,
    options: OptionNumbers<I::WideUInt>,
    subject: &Contours<I>,
    lines: &Contours<I>,
) -> Result<Answer<I>, Status>
    ensures { MatchResult result
        (λ a. IsFlat (AreSlicesAsAsked I.whole I.limit I.Wide.width I.WideUInt.natural fill options
        (contours_of subject.now.coordinates.now subject.now.ends.now)
        (contours_of lines.now.coordinates.now lines.now.ends.now)) I.whole
        (flat_shapes a.coordinates.items a.contour_ends.items a.shape_ends.items))
        (IsAskedSlicingRefused I.whole I.limit fill options
        (contours_of subject.now.coordinates.now subject.now.ends.now)
        (contours_of lines.now.coordinates.now lines.now.ends.now)) }
{
    let fill = fill_of(fill)?;
    let settings = options_of(options)?;
    let solver = known_solver(options.solver);
    let read = read_both(alloc, subject, lines)?;
    let shapes = sliced_shapes(alloc, &read, fill, settings, solver)?;
    let answer = flattened(alloc, &shapes)?;
    Ok(answer)
}
