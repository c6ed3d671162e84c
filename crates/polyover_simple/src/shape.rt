//! Shapes in arrays that are simplified, handed out.

ghost use Rattle.std.specs.Prelude.{◌≡◌, MatchResult};
ghost use Rattle.polyover_calls.specs.Given.{contours_of};
ghost use Rattle.polyover_calls.specs.Simplified.{IsSimplifyingRefused};
ghost use Rattle.polyover_calls.specs.Written.{flat_shapes};
ghost use Rattle.polyover_simple.specs.Told.{AreToldShapes, ToldShapesAreHeld, told_of};
ghost use Rattle.overlay_geom.specs.Rules.{bit};

use crate::contour::simplified_paths;
use crate::told::Told;
use overlay_geom::integer::OverlayInt;
use polyover_calls::answer::{Answer, flattened};
use polyover_calls::given::Contours;
use polyover_calls::held::{hold_nothing, hold_shapes};
use polyover_calls::numbers::{OptionNumbers, fill_of, known_solver, options_of};
use polyover_calls::read::read_contours;
use polyover_calls::status::Status;
use std::alloc::Global;

// Shapes as arrays, and whether the contours stay as they are given.
#[derive(Drop)]
struct ToldAnswer<I> {
    shapes: Answer<I>,
    as_given: bool,
}

/// The shapes that the contours of a shape are simplified to, and whether they stay as they are given.
#[tactic(auto, using(polyover_calls::proofs::Endings::put_ends, polyover_calls::proofs::Endings::refused_ends))]
pub fn simplified_shape_held<'a, I: OverlayInt + 'a>(
    alloc: Global,
    fill: u32,
    options: OptionNumbers<I::WideUInt>,
    given: &Contours<I>,
) -> Told<'a, I>
    ensures { ToldShapesAreHeld I.whole I.limit I.Wide.width I.WideUInt.natural fill options
        (contours_of given.now.coordinates.now given.now.ends.now) (told_of result) result.outcome.status }
{
    match told_answer(alloc, fill, options, given) {
        Ok(answer) => Told {
            outcome: hold_shapes(answer.shapes),
            as_given: number_of(answer.as_given),
        },
        Err(status) => Told {
            outcome: hold_nothing(status),
            as_given: 0,
        },
    }
}

// 1 where the contours stay, else 0.
fn number_of(stay: bool) -> u32
    ensures { result ≡ bit stay 1 }
{
    if stay { 1 } else { 0 }
}

// The shapes as arrays, or why there are none.
#[tactic(auto, using(polyover_calls::proofs::Simplified::contours_refused, polyover_calls::proofs::Simplified::memory_refused, polyover_calls::proofs::Simplified::simplifying_refused, crate::proofs::Telling::shapes_told))]
fn told_answer<I: OverlayInt>(
    alloc: Global,
    fill: u32,
    options: OptionNumbers<I::WideUInt>,
    given: &Contours<I>,
) -> Result<ToldAnswer<I>, Status>
    ensures { MatchResult result
        (λ a. AreToldShapes I.whole I.limit I.Wide.width I.WideUInt.natural fill options
        (contours_of given.now.coordinates.now given.now.ends.now)
        (record {
          flat = flat_shapes a.shapes.coordinates.items a.shapes.contour_ends.items a.shapes.shape_ends.items;
          as_given = bit a.as_given 1;
        }))
        (IsSimplifyingRefused I.whole I.limit fill options
        (contours_of given.now.coordinates.now given.now.ends.now)) }
{
    let fill = fill_of(fill)?;
    let settings = options_of(options)?;
    let solver = known_solver(options.solver);
    let contours = read_contours(alloc, given.coordinates, given.ends)?;
    let simplified = simplified_paths(alloc, &contours, fill, settings, solver)?;
    let shapes = flattened(alloc, &simplified.shapes)?;
    Ok(ToldAnswer {
        shapes,
        as_given: simplified.as_given,
    })
}
