//! The parts of open paths that a clip keeps, of arrays.

ghost use Rattle.std.specs.Prelude.{MatchResult};
ghost use Rattle.polyover_calls.specs.Clipped.{AreClips, IsClipRefused, ClipEnds};
ghost use Rattle.polyover_calls.specs.Given.{contours_of};
ghost use Rattle.polyover_calls.specs.WrittenPaths.{AreFlatPaths, flat_paths, path_room};

use crate::clip_options::{ClipOptions, clip_rule_of};
use crate::given::{Contours, read_both};
use crate::narrowed::{ArrayInt, narrowed_both};
use crate::numbers::{fill_of, known_solver};
use crate::path_answer::{PathAnswer, flattened_paths, put_paths, widened_paths};
use crate::path_counts::PathCounts;
use crate::status::Status;
use i_overlay::string::clip::IntClip;
use overlay_geom::integer::OverlayInt;
use std::alloc::Global;

/// The parts of the lines, which are open paths, that a clip by the shape keeps, put into the arrays.
#[tactic(auto, using(crate::proofs::Endings::put_ends, crate::proofs::Endings::refused_ends))]
pub fn clip_arrays<I: ArrayInt>(
    alloc: Global,
    fill: u32,
    options: ClipOptions,
    shape: &Contours<I>,
    lines: &Contours<I>,
    coordinates: &mut [I],
    ends: &mut [usize],
    counts: &mut PathCounts,
) -> Status
    ensures { ClipEnds I.whole I.limit fill options
        (contours_of shape.now.coordinates.now shape.now.ends.now)
        (contours_of lines.now.coordinates.now lines.now.ends.now)
        (path_room coordinates.old ends.old counts.old)
        (path_room coordinates.new ends.new counts.new)
        result }
{
    match fitted_clip(alloc, fill, options, shape, lines) {
        Ok(answer) => put_paths(&answer, coordinates, ends, counts),
        Err(status) => status,
    }
}

// The parts of the lines that a clip by the shape keeps, as arrays.
#[tactic(auto, using(crate::proofs::Clipped::contours_unclipped, crate::proofs::Clipped::memory_refused, crate::proofs::Clipped::clip_refused, crate::proofs::Clipped::lines_clipped))]
fn clip_answer<I: OverlayInt>(
    alloc: Global,
    fill: u32,
    options: ClipOptions,
    shape: &Contours<I>,
    lines: &Contours<I>,
) -> Result<PathAnswer<I>, Status>
    ensures { MatchResult result
        (λ a. AreFlatPaths (AreClips I.whole I.limit fill options
        (contours_of shape.now.coordinates.now shape.now.ends.now)
        (contours_of lines.now.coordinates.now lines.now.ends.now)) I.whole
        (flat_paths a.coordinates.items a.ends.items))
        (IsClipRefused I.whole I.limit fill options
        (contours_of shape.now.coordinates.now shape.now.ends.now)
        (contours_of lines.now.coordinates.now lines.now.ends.now)) }
{
    let fill = fill_of(fill)?;
    let rule = clip_rule_of(options)?;
    let solver = known_solver(options.solver);
    let read = read_both(alloc, shape, lines)?;
    let paths = read
        .first
        .clip_source_flat(alloc, &read.second, fill, rule, solver)?;
    let answer = flattened_paths(alloc, &paths)?;
    Ok(answer)
}

// The same, at 32 bits where all coordinates fit.
pub(crate) fn fitted_clip<I: ArrayInt>(
    alloc: Global,
    fill: u32,
    options: ClipOptions,
    shape: &Contours<I>,
    lines: &Contours<I>,
) -> Result<PathAnswer<I>, Status>
    ensures { MatchResult result
        (λ a. AreFlatPaths (AreClips I.whole I.limit fill options
        (contours_of shape.now.coordinates.now shape.now.ends.now)
        (contours_of lines.now.coordinates.now lines.now.ends.now)) I.whole
        (flat_paths a.coordinates.items a.ends.items))
        (IsClipRefused I.whole I.limit fill options
        (contours_of shape.now.coordinates.now shape.now.ends.now)
        (contours_of lines.now.coordinates.now lines.now.ends.now)) }
{
    if fill < 4 && clip_rule_of(options).is_ok() {
        if let Some(both) = narrowed_both(alloc, shape, lines) {
            let first = Contours {
                coordinates: &both.first,
                ends: shape.ends,
            };
            let second = Contours {
                coordinates: &both.second,
                ends: lines.ends,
            };
            let answer = clip_answer(alloc, fill, options, &first, &second)?;
            let answer = widened_paths(alloc, answer)?;
            return Ok(answer);
        }
    }
    clip_answer(alloc, fill, options, shape, lines)
}
