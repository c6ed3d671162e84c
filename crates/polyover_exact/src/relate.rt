//! How a subject and a clip in arrays lie to each other, as they are given.

ghost use Rattle.std.specs.Prelude.{◌≡◌, ◌≤◌, false, All, MatchResult};
ghost use Rattle.overlay_geom.specs.Flat.{paths_in};
ghost use Rattle.overlay_geom.specs.Points.{AllInRange};
ghost use Rattle.overlay_geom.specs.Rules.{bit, is_filled};
ghost use Rattle.overlay_builder.specs.GivenPaths.{added_paths, subject_and_clip};
ghost use Rattle.overlay_builder.specs.PathLists.{MayRefuseBuilder};
ghost use Rattle.polyover_calls.specs.Given.{contours_of};
ghost use Rattle.polyover_calls.specs.Related.{bits_of};
ghost use Rattle.polyover_exact.specs.Exact.{AreExactBits, AreExactOfHeld, AreExactRefused, ExactlyRelatingEnds};

use overlay_exact::exact_int::ExactInt;
use overlay_geom::error::OverlayError;
use overlay_geom::fill_rule::FillRule;
use overlay_geom::flat::contours::FlatContoursBuffer;
use overlay_predicates::exact_predicates::ExactPredicates;
use overlay_relate::relations::Relations;
use polyover_calls::given::{Contours, read_both};
use polyover_calls::numbers::fill_of;
use polyover_calls::status::Status;
use std::alloc::Global;

/// Writes how the contours of the subject and those of the clip lie to each other, under the fill rule with the number,
/// as bits. Nothing is rounded.
#[tactic(auto, using(crate::proofs::Told::told_ends, crate::proofs::Told::untold_ends))]
pub fn relate_exactly<I: ExactInt>(
    alloc: Global,
    fill: u32,
    subject: &Contours<I>,
    clip: &Contours<I>,
    relations: &mut u32,
) -> Status
    ensures { ExactlyRelatingEnds I.whole I.limit fill
        (contours_of subject.now.coordinates.now subject.now.ends.now)
        (contours_of clip.now.coordinates.now clip.now.ends.now)
        relations.old relations.new result }
{
    match exact_bits(alloc, fill, subject, clip) {
        Ok(bits) => {
            *relations = bits;
            Status::Done
        }
        Err(status) => status,
    }
}

// Returns the same bits, or why there are none.
#[tactic(auto, using(crate::proofs::Told::untold, crate::proofs::Told::refused_so, crate::proofs::Told::bits_told))]
fn exact_bits<I: ExactInt>(
    alloc: Global,
    fill: u32,
    subject: &Contours<I>,
    clip: &Contours<I>,
) -> Result<u32, Status>
    ensures { MatchResult result
        (AreExactBits I.whole I.limit fill
        (contours_of subject.now.coordinates.now subject.now.ends.now)
        (contours_of clip.now.coordinates.now clip.now.ends.now))
        (AreExactRefused I.whole I.limit fill
        (contours_of subject.now.coordinates.now subject.now.ends.now)
        (contours_of clip.now.coordinates.now clip.now.ends.now)) }
{
    let fill = fill_of(fill)?;
    let read = read_both(alloc, subject, clip)?;
    let relations = relations_between(alloc, &read.first, &read.second, fill)?;
    Ok(bits(relations))
}

// Returns how the contours lie to each other.
fn relations_between<I: ExactInt>(
    alloc: Global,
    subject: &FlatContoursBuffer<I, Global>,
    clip: &FlatContoursBuffer<I, Global>,
    fill: FillRule,
) -> Result<Relations, OverlayError>
    requires subject_in_range { All (AllInRange I.limit)
        (paths_in I.whole subject.now.points.items subject.now.ranges.items) }
    requires clip_in_range { All (AllInRange I.limit) (paths_in I.whole clip.now.points.items clip.now.ranges.items) }
    ensures { MatchResult result
        (AreExactOfHeld (is_filled fill)
        (subject_and_clip (paths_in I.whole subject.now.points.items subject.now.ranges.items)
        (paths_in I.whole clip.now.points.items clip.now.ranges.items)))
        (MayRefuseBuilder (added_paths false
        (subject_and_clip (paths_in I.whole subject.now.points.items subject.now.ranges.items)
        (paths_in I.whole clip.now.points.items clip.now.ranges.items)))) }
{
    let predicates = ExactPredicates::from_subj_and_clip_custom(alloc, subject, clip, fill)?;
    predicates.relations()
}

// Returns a bit for each relation that holds.
fn bits(relations: Relations) -> u32
    ensures { result ≡ bits_of relations }
{
    bit_if(relations.intersects, 1)
        + bit_if(relations.interiors_intersect, 2)
        + bit_if(relations.touches, 4)
        + bit_if(relations.point_intersects, 8)
        + bit_if(relations.within, 16)
        + bit_if(relations.disjoint, 32)
        + bit_if(relations.covers, 64)
}

/// Returns the bit of a relation that holds, and else 0.
pub(crate) fn bit_if(holds: bool, value: u32) -> u32
    ensures value { result ≡ bit holds value }
    ensures at_most { result ≤ value }
{
    if holds { value } else { 0 }
}
