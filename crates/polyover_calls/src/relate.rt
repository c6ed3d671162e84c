//! How a subject and a clip in arrays lie to each other.

ghost use Rattle.std.specs.Prelude.{◌≡◌, ◌≤◌, All, MatchResult};
ghost use Rattle.overlay_geom.specs.Rules.{bit};
ghost use Rattle.overlay_geom.specs.Flat.{paths_in};
ghost use Rattle.overlay_geom.specs.Points.{AllInRange};
ghost use Rattle.overlay_builder.specs.GivenPaths.{subject_and_clip};
ghost use Rattle.i_overlay.specs.OneShot.{MayRefusePaths};
ghost use Rattle.i_overlay.specs.Relations.{AreRelationsOfPaths};
ghost use Rattle.polyover_calls.specs.Given.{contours_of};
ghost use Rattle.polyover_calls.specs.Related.{AreRelated, IsRelatingRefused, RelatingEnds, bits_of};

use crate::given::{Contours, read_both};
use crate::narrowed::{ArrayInt, narrowed_both};
use crate::numbers::{are_query_numbers, fill_of, solver_of};
use crate::status::Status;
use i_overlay::fill_rule::FillRule;
use i_overlay::relate::{PredicateOverlay, Relations};
use i_overlay::solver::Solver;
use overlay_geom::error::OverlayError;
use overlay_geom::flat::contours::FlatContoursBuffer;
use overlay_geom::integer::OverlayInt;
use std::alloc::Global;

// A bit for each relation that holds.
fn bits(relations: Relations) -> u32
    ensures { result ≡ bits_of relations }
{
    bit_if(relations.intersects, 1)
        + bit_if(relations.interiors_intersect, 2)
        + bit_if(relations.touches, 4)
        + bit_if(relations.point_intersects, 8)
        + bit_if(relations.within, 16)
        + bit_if(relations.disjoint, 32)
        + bit_if(relations.covers, 64)
}

// The bit of a relation that holds, and 0 of another one.
fn bit_if(holds: bool, value: u32) -> u32
    ensures value { result ≡ bit holds value }
    ensures at_most { result ≤ value }
{
    if holds { value } else { 0 }
}

/// How the contours of the subject and those of the clip lie to each other, under the fill rule with the number,
/// written as bits.
#[tactic(auto, using(crate::proofs::Related::told_ends, crate::proofs::Related::untold_ends))]
pub fn relate_arrays<I: ArrayInt>(
    alloc: Global,
    fill: u32,
    solver: u32,
    subject: &Contours<I>,
    clip: &Contours<I>,
    relations: &mut u32,
) -> Status
    ensures { RelatingEnds I.whole I.limit fill solver
        (contours_of subject.now.coordinates.now subject.now.ends.now)
        (contours_of clip.now.coordinates.now clip.now.ends.now)
        relations.old relations.new result }
{
    match fitted_bits(alloc, fill, solver, subject, clip) {
        Ok(bits) => {
            *relations = bits;
            Status::Done
        }
        Err(status) => status,
    }
}

// The same bits, or why there are none.
#[tactic(auto, using(crate::proofs::Related::contours_untold, crate::proofs::Related::relating_refused, crate::proofs::Related::bits_told))]
fn relation_bits<I: OverlayInt>(
    alloc: Global,
    fill: u32,
    solver: u32,
    subject: &Contours<I>,
    clip: &Contours<I>,
) -> Result<u32, Status>
    ensures { MatchResult result
        (AreRelated I.whole I.limit fill solver
        (contours_of subject.now.coordinates.now subject.now.ends.now)
        (contours_of clip.now.coordinates.now clip.now.ends.now))
        (IsRelatingRefused I.whole I.limit fill solver
        (contours_of subject.now.coordinates.now subject.now.ends.now)
        (contours_of clip.now.coordinates.now clip.now.ends.now)) }
{
    let fill = fill_of(fill)?;
    let solver = solver_of(solver)?;
    let read = read_both(alloc, subject, clip)?;
    let relations = relations_between(alloc, &read.first, &read.second, fill, solver)?;
    Ok(bits(relations))
}

// How the contours lie to each other, all told of one arrangement.
fn relations_between<I: OverlayInt>(
    alloc: Global,
    subject: &FlatContoursBuffer<I, Global>,
    clip: &FlatContoursBuffer<I, Global>,
    fill: FillRule,
    solver: Solver,
) -> Result<Relations, OverlayError>
    requires subject_in_range { All (AllInRange I.limit)
        (paths_in I.whole subject.now.points.items subject.now.ranges.items) }
    requires clip_in_range { All (AllInRange I.limit) (paths_in I.whole clip.now.points.items clip.now.ranges.items) }
    ensures { MatchResult result
        (AreRelationsOfPaths solver fill
        (subject_and_clip (paths_in I.whole subject.now.points.items subject.now.ranges.items)
        (paths_in I.whole clip.now.points.items clip.now.ranges.items))
        (subject_and_clip (paths_in I.whole clip.now.points.items clip.now.ranges.items)
        (paths_in I.whole subject.now.points.items subject.now.ranges.items)))
        (MayRefusePaths solver
        (subject_and_clip (paths_in I.whole subject.now.points.items subject.now.ranges.items)
        (paths_in I.whole clip.now.points.items clip.now.ranges.items))) }
{
    let mut overlay = PredicateOverlay::from_subj_and_clip_custom(
        alloc, subject, clip, fill, solver,
    )?;
    overlay.relations()
}

// The same bits, told at 32 bits where all coordinates fit.
fn fitted_bits<I: ArrayInt>(
    alloc: Global,
    fill: u32,
    solver: u32,
    subject: &Contours<I>,
    clip: &Contours<I>,
) -> Result<u32, Status>
    ensures { MatchResult result
        (AreRelated I.whole I.limit fill solver
        (contours_of subject.now.coordinates.now subject.now.ends.now)
        (contours_of clip.now.coordinates.now clip.now.ends.now))
        (IsRelatingRefused I.whole I.limit fill solver
        (contours_of subject.now.coordinates.now subject.now.ends.now)
        (contours_of clip.now.coordinates.now clip.now.ends.now)) }
{
    if are_query_numbers(fill, solver) {
        if let Some(both) = narrowed_both(alloc, subject, clip) {
            let first = Contours {
                coordinates: &both.first,
                ends: subject.ends,
            };
            let second = Contours {
                coordinates: &both.second,
                ends: clip.ends,
            };
            return relation_bits(alloc, fill, solver, &first, &second);
        }
    }
    relation_bits(alloc, fill, solver, subject, clip)
}
