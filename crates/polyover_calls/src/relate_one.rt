//! Whether one relation of a subject and a clip in arrays holds.

ghost use Rattle.std.specs.Prelude.{◌≡◌, ◌↔◌, All, MatchResult, IsTrue};
ghost use Rattle.overlay_geom.specs.Rules.{bit};
ghost use Rattle.overlay_geom.specs.Flat.{paths_in};
ghost use Rattle.overlay_geom.specs.Points.{AllInRange};
ghost use Rattle.overlay_builder.specs.GivenPaths.{subject_and_clip};
ghost use Rattle.i_overlay.specs.OneShot.{MayRefusePaths};
ghost use Rattle.i_overlay.specs.Relations.{TellsOfPaths};
ghost use Rattle.polyover_calls.specs.Given.{contours_of};
ghost use Rattle.polyover_calls.specs.RelatedOne.{AreRelationNumbers, Holds, IsRelatedSo, IsRelationRefused};
ghost use Rattle.polyover_calls.specs.RelatedOne.{RelatingOneEnds};

use crate::given::{Contours, read_both};
use crate::narrowed::{ArrayInt, narrowed_both};
use crate::numbers::{fill_of, solver_of};
use crate::relation::{Relation, relation_of};
use crate::status::Status;
use i_overlay::fill_rule::FillRule;
use i_overlay::relate::PredicateOverlay;
use i_overlay::solver::Solver;
use overlay_geom::error::OverlayError;
use overlay_geom::flat::contours::FlatContoursBuffer;
use overlay_geom::integer::OverlayInt;
use std::alloc::Global;

/// Whether the relation with the bit holds of the contours of the subject and those of the clip, under the fill rule
/// with the number: 1 where it does, else 0.
#[tactic(auto, using(crate::proofs::RelatedOne::told_ends, crate::proofs::RelatedOne::untold_ends))]
pub fn relate_one<I: ArrayInt>(
    alloc: Global,
    relation: u32,
    fill: u32,
    solver: u32,
    subject: &Contours<I>,
    clip: &Contours<I>,
    holds: &mut u32,
) -> Status
    ensures { RelatingOneEnds I.whole I.limit relation fill solver
        (contours_of subject.now.coordinates.now subject.now.ends.now)
        (contours_of clip.now.coordinates.now clip.now.ends.now)
        holds.old holds.new result }
{
    match fitted_answer(alloc, relation, fill, solver, subject, clip) {
        Ok(answer) => {
            *holds = answer;
            Status::Done
        }
        Err(status) => status,
    }
}

// The same answer, or why there is none.
#[tactic(auto, using(crate::proofs::RelatedOne::contours_untold, crate::proofs::RelatedOne::relation_refused, crate::proofs::RelatedOne::answer_told, crate::proofs::RelatedOne::relation_unknown, crate::proofs::RelatedOne::solver_unknown))]
fn one_answer<I: OverlayInt>(
    alloc: Global,
    relation: u32,
    fill: u32,
    solver: u32,
    subject: &Contours<I>,
    clip: &Contours<I>,
) -> Result<u32, Status>
    ensures { MatchResult result
        (IsRelatedSo I.whole I.limit relation fill solver
        (contours_of subject.now.coordinates.now subject.now.ends.now)
        (contours_of clip.now.coordinates.now clip.now.ends.now))
        (IsRelationRefused I.whole I.limit relation fill solver
        (contours_of subject.now.coordinates.now subject.now.ends.now)
        (contours_of clip.now.coordinates.now clip.now.ends.now)) }
{
    let fill = fill_of(fill)?;
    let relation = relation_of(relation)?;
    let solver = solver_of(solver)?;
    let read = read_both(alloc, subject, clip)?;
    let holds = holds_between(alloc, &read.first, &read.second, relation, fill, solver)?;
    Ok(number_of(holds))
}

// 1 where it holds, else 0.
fn number_of(holds: bool) -> u32
    ensures { result ≡ bit holds 1 }
{
    if holds { 1 } else { 0 }
}

// Whether the relation holds of the contours; it is asked alone, so that the query stops early.
fn holds_between<I: OverlayInt>(
    alloc: Global,
    subject: &FlatContoursBuffer<I, Global>,
    clip: &FlatContoursBuffer<I, Global>,
    relation: Relation,
    fill: FillRule,
    solver: Solver,
) -> Result<bool, OverlayError>
    requires subject_in_range { All (AllInRange I.limit)
        (paths_in I.whole subject.now.points.items subject.now.ranges.items) }
    requires clip_in_range { All (AllInRange I.limit) (paths_in I.whole clip.now.points.items clip.now.ranges.items) }
    ensures { MatchResult result
        (TellsOfPaths solver (Holds relation) fill
        (subject_and_clip (paths_in I.whole subject.now.points.items subject.now.ranges.items)
        (paths_in I.whole clip.now.points.items clip.now.ranges.items)))
        (MayRefusePaths solver
        (subject_and_clip (paths_in I.whole subject.now.points.items subject.now.ranges.items)
        (paths_in I.whole clip.now.points.items clip.now.ranges.items))) }
{
    let mut overlay = PredicateOverlay::from_subj_and_clip_custom(
        alloc, subject, clip, fill, solver,
    )?;
    match relation {
        Relation::Intersects => overlay.intersects(),
        Relation::InteriorsIntersect => overlay.interiors_intersect(),
        Relation::Touches => overlay.touches(),
        Relation::PointIntersects => overlay.point_intersects(),
        Relation::Within => overlay.within(),
        Relation::Disjoint => {
            let meets = overlay.intersects()?;
            Ok(!meets)
        }
        Relation::Covers => overlay.covers(),
    }
}

// The same answer, told at 32 bits where all coordinates fit.
fn fitted_answer<I: ArrayInt>(
    alloc: Global,
    relation: u32,
    fill: u32,
    solver: u32,
    subject: &Contours<I>,
    clip: &Contours<I>,
) -> Result<u32, Status>
    ensures { MatchResult result
        (IsRelatedSo I.whole I.limit relation fill solver
        (contours_of subject.now.coordinates.now subject.now.ends.now)
        (contours_of clip.now.coordinates.now clip.now.ends.now))
        (IsRelationRefused I.whole I.limit relation fill solver
        (contours_of subject.now.coordinates.now subject.now.ends.now)
        (contours_of clip.now.coordinates.now clip.now.ends.now)) }
{
    if are_relation_numbers(relation, fill, solver) {
        if let Some(both) = narrowed_both(alloc, subject, clip) {
            let first = Contours {
                coordinates: &both.first,
                ends: subject.ends,
            };
            let second = Contours {
                coordinates: &both.second,
                ends: clip.ends,
            };
            return one_answer(alloc, relation, fill, solver, &first, &second);
        }
    }
    one_answer(alloc, relation, fill, solver, subject, clip)
}

// Returns whether the numbers all stand for something.
fn are_relation_numbers(relation: u32, fill: u32, solver: u32) -> bool {
    fill < 4 && solver < 2 && relation_of(relation).is_ok()
}
