//! The shapes that contours in arrays are simplified to.

ghost use Rattle.std.specs.Prelude.{◌≡◌, All, IfOk, IfErr, MatchResult};
ghost use Rattle.overlay_geom.specs.declared.options.ShapeType.TheVariants.{Subject};
ghost use Rattle.overlay_geom.specs.Flat.{paths_in};
ghost use Rattle.overlay_geom.specs.Paths.{plain_shapes};
ghost use Rattle.overlay_geom.specs.Points.{AllInRange};
ghost use Rattle.overlay_builder.specs.GivenPaths.{paths_for};
ghost use Rattle.overlay_extract.specs.Results.{asked};
ghost use Rattle.i_overlay.specs.Alone.{MayRefuseAlone};
ghost use Rattle.i_overlay.specs.Simplified.{IsSimplifiedAlone};
ghost use Rattle.polyover_calls.specs.Given.{contours_of};
ghost use Rattle.polyover_calls.specs.Simplified.{IsSimplification, IsSimplifyingRefused, SimplifyingEnds};
ghost use Rattle.polyover_calls.specs.Written.{IsFlat, flat_shapes, shape_room};

use crate::answer::{Answer, flattened, put, widened};
use crate::counts::Counts;
use crate::given::Contours;
use crate::narrowed::{ArrayInt, narrowed_one};
use crate::numbers::{OptionNumbers, are_known, fill_of, known_solver, options_of};
use crate::read::read_contours;
use crate::status::Status;
use i_overlay::fill_rule::FillRule;
use i_overlay::overlay::IntOverlayOptions;
use i_overlay::overlay_rule::OverlayRule;
use i_overlay::simplify::Simplify;
use i_overlay::solver::Solver;
use overlay_geom::error::OverlayError;
use overlay_geom::flat::contours::FlatContoursBuffer;
use overlay_geom::integer::OverlayInt;
use overlay_geom::path::IntShapes;
use std::alloc::Global;

/// The shapes that the contours are simplified to, put into the arrays.
#[tactic(auto, using(crate::proofs::Endings::put_ends, crate::proofs::Endings::refused_ends))]
pub fn simplify_arrays<I: ArrayInt>(
    alloc: Global,
    fill: u32,
    options: OptionNumbers<I::WideUInt>,
    given: &Contours<I>,
    coordinates: &mut [I],
    contour_ends: &mut [usize],
    shape_ends: &mut [usize],
    counts: &mut Counts,
) -> Status
    ensures { SimplifyingEnds I.whole I.limit I.Wide.width I.WideUInt.natural fill options
        (contours_of given.now.coordinates.now given.now.ends.now)
        (shape_room coordinates.old contour_ends.old shape_ends.old counts.old)
        (shape_room coordinates.new contour_ends.new shape_ends.new counts.new)
        result }
{
    match fitted_simplification(alloc, fill, options, given) {
        Ok(answer) => put(&answer, coordinates, contour_ends, shape_ends, counts),
        Err(status) => status,
    }
}

// The shapes that the contours are simplified to, as arrays.
#[tactic(auto, using(crate::proofs::Simplified::contours_refused, crate::proofs::Simplified::memory_refused, crate::proofs::Simplified::simplifying_refused, crate::proofs::Simplified::contours_simplified))]
fn simplify_answer<I: OverlayInt>(
    alloc: Global,
    fill: u32,
    options: OptionNumbers<I::WideUInt>,
    given: &Contours<I>,
) -> Result<Answer<I>, Status>
    ensures { MatchResult result
        (λ a. IsFlat (IsSimplification I.whole I.limit I.Wide.width I.WideUInt.natural fill options
        (contours_of given.now.coordinates.now given.now.ends.now)) I.whole
        (flat_shapes a.coordinates.items a.contour_ends.items a.shape_ends.items))
        (IsSimplifyingRefused I.whole I.limit fill options
        (contours_of given.now.coordinates.now given.now.ends.now)) }
{
    let fill = fill_of(fill)?;
    let settings = options_of(options)?;
    let solver = known_solver(options.solver);
    let contours = read_contours(alloc, given.coordinates, given.ends)?;
    let shapes = simplified_shapes(alloc, &contours, fill, settings, solver)?;
    let answer = flattened(alloc, &shapes)?;
    Ok(answer)
}

// The shapes that the contours are simplified to.
fn simplified_shapes<I: OverlayInt>(
    alloc: Global,
    contours: &FlatContoursBuffer<I, Global>,
    fill: FillRule,
    options: IntOverlayOptions<I::WideUInt>,
    solver: Solver,
) -> Result<IntShapes<I, Global>, OverlayError>
    requires { All (AllInRange I.limit) (paths_in I.whole contours.now.points.items contours.now.ranges.items) }
    ensures result { IfOk result (λ v. IsSimplifiedAlone solver
        (asked I.Wide.width I.WideUInt.natural fill OverlayRule.Subject options) options.preserve_input_collinear
        (paths_in I.whole contours.now.points.items contours.now.ranges.items) (plain_shapes I.whole v.items)) }
    ensures err { IfErr result (MayRefuseAlone options.preserve_input_collinear solver
        (paths_for Subject (paths_in I.whole contours.now.points.items contours.now.ranges.items))) }
{
    contours.simplify_with_solver(alloc, fill, options, solver)
}

// The same, at 32 bits where all coordinates fit and contours of all areas are kept.
pub(crate) fn fitted_simplification<I: ArrayInt>(
    alloc: Global,
    fill: u32,
    options: OptionNumbers<I::WideUInt>,
    given: &Contours<I>,
) -> Result<Answer<I>, Status>
    ensures { MatchResult result
        (λ a. IsFlat (IsSimplification I.whole I.limit I.Wide.width I.WideUInt.natural fill options
        (contours_of given.now.coordinates.now given.now.ends.now)) I.whole
        (flat_shapes a.coordinates.items a.contour_ends.items a.shape_ends.items))
        (IsSimplifyingRefused I.whole I.limit fill options
        (contours_of given.now.coordinates.now given.now.ends.now)) }
{
    if options.keep_all() && are_known(0, fill, &options) {
        if let Some(narrowed) = narrowed_one(alloc, given) {
            let contours = Contours {
                coordinates: &narrowed,
                ends: given.ends,
            };
            let answer = simplify_answer(alloc, fill, options.without_minimum(), &contours)?;
            let answer = widened(alloc, answer)?;
            return Ok(answer);
        }
    }
    simplify_answer(alloc, fill, options, given)
}
