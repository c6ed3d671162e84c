//! Whether one relation of a subject and a clip in arrays holds, as they are given.

ghost use Rattle.std.specs.Prelude.{◌≡◌, false, All, MatchResult};
ghost use Rattle.overlay_geom.specs.Flat.{paths_in};
ghost use Rattle.overlay_geom.specs.Points.{AllInRange};
ghost use Rattle.overlay_geom.specs.Rules.{is_filled};
ghost use Rattle.overlay_builder.specs.GivenPaths.{added_paths, subject_and_clip};
ghost use Rattle.overlay_builder.specs.PathLists.{MayRefuseBuilder};
ghost use Rattle.polyover_calls.specs.Given.{contours_of};
ghost use Rattle.polyover_exact.specs.One.{IsExactlySo, IsRelationRefusedExactly, TellsOfHeld};
ghost use Rattle.polyover_exact.specs.One.{RelatingOneExactlyEnds};

use crate::relate::bit_if;
use overlay_exact::exact_int::ExactInt;
use overlay_geom::error::OverlayError;
use overlay_geom::fill_rule::FillRule;
use overlay_geom::flat::contours::FlatContoursBuffer;
use overlay_predicates::exact_predicates::ExactPredicates;
use polyover_calls::given::{Contours, read_both};
use polyover_calls::numbers::fill_of;
use polyover_calls::relation::{Relation, relation_of};
use polyover_calls::status::Status;
use std::alloc::Global;

/// A relation that is asked of a subject and a clip.
#[derive(Clone, Copy)]
pub struct AskedRelation<'a, I> {
    /// The bit of the relation.
    pub relation: u32,
    /// The number of the fill rule.
    pub fill: u32,
    /// The contours of the subject.
    pub subject: Contours<'a, I>,
    /// Those of the clip.
    pub clip: Contours<'a, I>,
}

/// Writes whether the relation holds of the contours of the subject and those of the clip under the fill rule: 1 where
/// it does, else 0. Nothing is rounded.
#[tactic(auto, using(crate::proofs::ToldOne::told_ends, crate::proofs::ToldOne::untold_ends))]
pub fn relate_one_exactly<I: ExactInt>(
    alloc: Global,
    asked: &AskedRelation<I>,
    holds: &mut u32,
) -> Status
    ensures { RelatingOneExactlyEnds I.whole I.limit asked.now.relation asked.now.fill
        (contours_of asked.now.subject.coordinates.now asked.now.subject.ends.now)
        (contours_of asked.now.clip.coordinates.now asked.now.clip.ends.now)
        holds.old holds.new result }
{
    match exact_answer(alloc, asked) {
        Ok(answer) => {
            *holds = answer;
            Status::Done
        }
        Err(status) => status,
    }
}

// Returns the same answer, or why there is none.
#[tactic(auto, using(crate::proofs::ToldOne::relation_unknown))]
fn exact_answer<I: ExactInt>(alloc: Global, asked: &AskedRelation<I>) -> Result<u32, Status>
    ensures { MatchResult result
        (IsExactlySo I.whole I.limit asked.now.relation asked.now.fill
        (contours_of asked.now.subject.coordinates.now asked.now.subject.ends.now)
        (contours_of asked.now.clip.coordinates.now asked.now.clip.ends.now))
        (IsRelationRefusedExactly I.whole I.limit asked.now.relation asked.now.fill
        (contours_of asked.now.subject.coordinates.now asked.now.subject.ends.now)
        (contours_of asked.now.clip.coordinates.now asked.now.clip.ends.now)) }
{
    let fill = fill_of(asked.fill)?;
    let relation = relation_of(asked.relation)?;
    let read = read_both(alloc, &asked.subject, &asked.clip)?;
    let holds = holds_between(alloc, &read.first, &read.second, relation, fill)?;
    Ok(bit_if(holds, 1))
}

// Returns whether the relation holds of the contours. It is asked alone, so that the query stops early.
fn holds_between<I: ExactInt>(
    alloc: Global,
    subject: &FlatContoursBuffer<I, Global>,
    clip: &FlatContoursBuffer<I, Global>,
    relation: Relation,
    fill: FillRule,
) -> Result<bool, OverlayError>
    requires subject_in_range { All (AllInRange I.limit)
        (paths_in I.whole subject.now.points.items subject.now.ranges.items) }
    requires clip_in_range { All (AllInRange I.limit) (paths_in I.whole clip.now.points.items clip.now.ranges.items) }
    ensures { MatchResult result
        (TellsOfHeld relation (is_filled fill)
        (subject_and_clip (paths_in I.whole subject.now.points.items subject.now.ranges.items)
        (paths_in I.whole clip.now.points.items clip.now.ranges.items)))
        (MayRefuseBuilder (added_paths false
        (subject_and_clip (paths_in I.whole subject.now.points.items subject.now.ranges.items)
        (paths_in I.whole clip.now.points.items clip.now.ranges.items)))) }
{
    let predicates = ExactPredicates::from_subj_and_clip_custom(alloc, subject, clip, fill)?;
    match relation {
        Relation::Intersects => predicates.intersects(),
        Relation::InteriorsIntersect => predicates.interiors_intersect(),
        Relation::Touches => predicates.touches(),
        Relation::PointIntersects => predicates.point_intersects(),
        Relation::Within => predicates.within(),
        Relation::Disjoint => predicates.disjoint(),
        Relation::Covers => predicates.covers(),
    }
}
