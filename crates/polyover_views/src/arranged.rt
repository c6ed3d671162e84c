//! The arrangement of the contours of a subject and of a clip.

ghost use Rattle.std.specs.Prelude.{◌≡◌, All, IfOk, IfErr};
ghost use Rattle.overlay_builder.specs.GivenPaths.{added_paths, subject_and_clip};
ghost use Rattle.overlay_builder.specs.Held.{nothing_held, plain_held};
ghost use Rattle.overlay_builder.specs.PathLists.{AddsAsAsked};
ghost use Rattle.overlay_geom.specs.Edges.{weight};
ghost use Rattle.overlay_geom.specs.Flat.{paths_in};
ghost use Rattle.overlay_geom.specs.Points.{AllInRange};
ghost use Rattle.overlay_graph.specs.Graphs.{IsArrangement};
ghost use Rattle.overlay_plane.specs.Balance.{HasBalancedCounts};
ghost use Rattle.overlay_plane.specs.Carried.{edges_in};
ghost use Rattle.i_overlay.specs.Alone.{IsArrangedAlone, MayRefuseAlone};

use i_overlay::solver::Solver;
use overlay_builder::boolean::passing_without_data;
use overlay_builder::builder_core::BuilderCore;
use overlay_builder::path::contour_kind;
use overlay_geom::error::OverlayError;
use overlay_geom::flat::contours::FlatContoursBuffer;
use overlay_geom::integer::OverlayInt;
use overlay_geom::options::ShapeType;
use overlay_order::data::CountWithData;
use std::alloc::Global;

/// The core of a builder that holds an arrangement of the contours of both, reached by the solver. Points on one line
/// with their two neighbours are kept, or dropped first.
///
/// Refusals: `NotSettled` (never with `Solver::SNAPPED`), `TooManyEdges` and `Memory`.
pub(crate) fn arranged_core<I: OverlayInt>(
    alloc: Global,
    subject: &FlatContoursBuffer<I, Global>,
    clip: &FlatContoursBuffer<I, Global>,
    keep: bool,
    solver: Solver,
) -> Result<BuilderCore<I, CountWithData<()>, Global>, OverlayError>
    requires subject_in_range { All (AllInRange I.limit)
        (paths_in I.whole subject.now.points.items subject.now.ranges.items) }
    requires clip_in_range { All (AllInRange I.limit) (paths_in I.whole clip.now.points.items clip.now.ranges.items) }
    ensures paths { IfOk result (λ b. IsArrangedAlone keep solver
        (subject_and_clip (paths_in I.whole subject.now.points.items subject.now.ranges.items)
        (paths_in I.whole clip.now.points.items clip.now.ranges.items)) (edges_in b.edges)) }
    ensures arranged { IfOk result (λ b. IsArrangement I.limit (edges_in b.edges)) }
    ensures balanced { IfOk result (λ b. HasBalancedCounts (edges_in b.edges)) }
    ensures err { IfErr result (MayRefuseAlone keep solver
        (subject_and_clip (paths_in I.whole subject.now.points.items subject.now.ranges.items)
        (paths_in I.whole clip.now.points.items clip.now.ranges.items))) }
{
    let mut core = BuilderCore::with_capacity(alloc, 0)?;
    add_both(&mut core, subject, clip, keep)?;
    core.arrange(solver, &mut ())?;
    Ok(core)
}

// Adds the contours of both to nothing.
fn add_both<I: OverlayInt>(
    core: &mut BuilderCore<I, CountWithData<()>, Global>,
    subject: &FlatContoursBuffer<I, Global>,
    clip: &FlatContoursBuffer<I, Global>,
    keep: bool,
) -> Result<(), OverlayError>
    requires nothing { core.old ≡ nothing_held }
    requires subject_in_range { All (AllInRange I.limit)
        (paths_in I.whole subject.now.points.items subject.now.ranges.items) }
    requires clip_in_range { All (AllInRange I.limit) (paths_in I.whole clip.now.points.items clip.now.ranges.items) }
    ensures { AddsAsAsked weight (added_paths keep
        (subject_and_clip (paths_in I.whole subject.now.points.items subject.now.ranges.items)
        (paths_in I.whole clip.now.points.items clip.now.ranges.items))) nothing_held (plain_held core.new) result }
{
    let kind = contour_kind(keep);
    core.add_paths(subject, kind, passing_without_data(ShapeType::Subject))?;
    core.add_paths(clip, kind, passing_without_data(ShapeType::Clip))
}
