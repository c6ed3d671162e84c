//! Binding: the shape that each hole belongs to.

ghost use Rattle.std.specs.Prelude.{◌≡◌, length, All, Some, IfOk};
ghost use Rattle.overlay_plane.specs.BoundContours.{walks_in, AreShapesFound};
ghost use Rattle.overlay_plane.specs.KeptContours.{CanBeBound};
ghost use Rattle.overlay_scan.specs.Scan.{empty_sweep};
ghost use Rattle.overlay_walk.specs.GroupedContours.{plain_contours};
ghost use Rattle.overlay_walk.specs.Steps.{filled_hand, IsLong};

use crate::binding::known_shapes::{shape_count, shapes_known};
use crate::binding::sweep::parents_by_sweep;
use overlay_geom::number::IntNumber;
use overlay_geom::options::ContourDirection;
use overlay_scan::scan::Scan;
use overlay_scan::tree::either::EitherScan;
use overlay_walk::contour::Contour;
use std::alloc::{AllocError, Allocator};

/// Returns a list of `count` times the number of the first shape.
fn all_in_first<A: Allocator>(alloc: A, count: usize) -> Result<Vec<Option<usize>, A>, AllocError>
    ensures ok { IfOk result (λ v. (length v.items ≡ count) × All (λ s. s ≡ Some 0) v.items) }
{
    let mut numbers = Vec::new(alloc);
    numbers.resize(count, Some(0))?;
    Ok(numbers)
}

/// Returns the list that [`bind_contours`] gives, for a limit of the caller's. Where there are `tree_from` outlines or
/// more, the live edges stand in a tree from the first one on. Else they stand in a list, which turns into a tree when
/// it would hold many. The answer does not depend on it.
pub fn bind_from<I: IntNumber, A: Allocator + Clone>(
    alloc: A,
    contours: &[Contour<I, A>],
    direction: ContourDirection,
    tree_from: usize,
) -> Result<Vec<Option<usize>, A>, AllocError>
    requires long { All (All (IsLong I.limit)) (walks_in (plain_contours I.whole contours.now)) }
    requires bindable { CanBeBound (filled_hand direction) (walks_in (plain_contours I.whole contours.now)) }
    ensures found { IfOk result
        (λ v. AreShapesFound (filled_hand direction) (plain_contours I.whole contours.now) v.items) }
{
    let shapes = shape_count(contours);
    let mut scan = EitherScan::for_count(alloc.clone()?, shapes, tree_from);
    bind_contours(alloc, &mut scan, contours, direction)
}

/// Returns a list with an entry for each contour. The entry of a hole whose shape is to be found is the number of its
/// shape, or None. If there is one outline alone, it is that shape. Otherwise the contour with the next filled-above
/// edge below the hole's anchor decides. An outline, or a hole of its group, gives its own shape; another hole gives
/// the shape found for it. The entry is None if there is no such edge, or if no shape is found for that hole. The
/// entries of other contours are left open.
///
/// The contours' edges meet in ends alone, and none walks along an edge twice. No two filled-above edges are equal, nor
/// two filled-below edges. The scan is empty at first; its content afterwards is left open.
pub fn bind_contours<I: IntNumber, A: Allocator + Clone, S: Scan<I, usize>>(
    alloc: A,
    scan: &mut S,
    contours: &[Contour<I, A>],
    direction: ContourDirection,
) -> Result<Vec<Option<usize>, A>, AllocError>
    requires long { All (All (IsLong I.limit)) (walks_in (plain_contours I.whole contours.now)) }
    requires bindable { CanBeBound (filled_hand direction) (walks_in (plain_contours I.whole contours.now)) }
    requires empty { S.content scan.old ≡ empty_sweep }
    ensures found { IfOk result
        (λ v. AreShapesFound (filled_hand direction) (plain_contours I.whole contours.now) v.items) }
{
    if shape_count(contours) == 1 {
        return all_in_first(alloc, contours.len());
    }
    let known = shapes_known(alloc.clone()?, contours)?;
    let shapes = parents_by_sweep(alloc, scan, contours, &known, direction)?;
    Ok(shapes)
}
