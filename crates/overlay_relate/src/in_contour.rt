//! Where points lie in one contour.

ghost use Rattle.std.specs.Prelude.{◌≡◌, [], ◌∷◌, IfOk};
ghost use Rattle.overlay_geom.specs.Points.{plain_points, AllInRange};
ghost use Rattle.overlay_geom.specs.Resolved.{IsResolved};
ghost use Rattle.overlay_relate.specs.Answers.{AnswersWhere};
ghost use Rattle.overlay_relate.specs.Locations.{IsLocatedIn};
ghost use Rattle.overlay_scan.specs.Scan.{empty_sweep};

use crate::contour_edges::contour_edges;
use crate::location::PointLocation;
use crate::sweep::locate_by_sweep;
use overlay_geom::number::IntNumber;
use overlay_geom::point::IntPoint;
use overlay_scan::scan::Scan;
use overlay_scan::tree::either::EitherScan;
use std::alloc::{AllocError, Allocator};

// Least number of a contour's edges with which the live ones stand in a tree from the first one on.
const TREE_FROM_EDGES: usize = 8_000;

/// Returns where each point lies in the contour, in order.
pub fn locate_in_contour<I: IntNumber, A: Allocator + Clone>(
    alloc: A,
    contour: &[IntPoint<I>],
    points: &[IntPoint<I>],
) -> Result<Vec<PointLocation, A>, AllocError>
    requires contour { AllInRange I.limit (plain_points I.whole contour.now) }
    requires resolved { IsResolved (plain_points I.whole contour.now) }
    requires points { AllInRange I.limit (plain_points I.whole points.now) }
    ensures located { IfOk result (λ v. AnswersWhere (IsLocatedIn (plain_points I.whole contour.now ∷ []))
        (plain_points I.whole points.now) v.items) }
{
    locate_from(alloc, contour, points, TREE_FROM_EDGES)
}

/// Returns where each point lies in the contour, in order, for a limit of the caller's. Where the contour has
/// `tree_from` edges or more, the live ones stand in a tree from the first one on. Else they stand in a list, which
/// turns into a tree when it would hold many. The answer does not depend on it.
pub fn locate_from<I: IntNumber, A: Allocator + Clone>(
    alloc: A,
    contour: &[IntPoint<I>],
    points: &[IntPoint<I>],
    tree_from: usize,
) -> Result<Vec<PointLocation, A>, AllocError>
    requires contour { AllInRange I.limit (plain_points I.whole contour.now) }
    requires resolved { IsResolved (plain_points I.whole contour.now) }
    requires points { AllInRange I.limit (plain_points I.whole points.now) }
    ensures located { IfOk result (λ v. AnswersWhere (IsLocatedIn (plain_points I.whole contour.now ∷ []))
        (plain_points I.whole points.now) v.items) }
{
    let edges = contour_edges(alloc.clone()?, contour)?;
    let mut scan = EitherScan::for_count(alloc.clone()?, edges.len(), tree_from);
    let answers = locate_by_sweep(alloc, &mut scan, &edges, points)?;
    Ok(answers)
}

/// Returns where each point lies in the contour, in order. The scan is empty at first; its content afterwards is left
/// open.
pub fn locate_by<I: IntNumber, A: Allocator + Clone, S: Scan<I, usize>>(
    alloc: A,
    scan: &mut S,
    contour: &[IntPoint<I>],
    points: &[IntPoint<I>],
) -> Result<Vec<PointLocation, A>, AllocError>
    requires contour { AllInRange I.limit (plain_points I.whole contour.now) }
    requires resolved { IsResolved (plain_points I.whole contour.now) }
    requires points { AllInRange I.limit (plain_points I.whole points.now) }
    requires empty { S.content scan.old ≡ empty_sweep }
    ensures located { IfOk result (λ v. AnswersWhere (IsLocatedIn (plain_points I.whole contour.now ∷ []))
        (plain_points I.whole points.now) v.items) }
{
    let edges = contour_edges(alloc.clone()?, contour)?;
    let answers = locate_by_sweep(alloc, scan, &edges, points)?;
    Ok(answers)
}
