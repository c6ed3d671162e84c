//! The links of contours placed in shapes.

ghost use Rattle.std.specs.Prelude.{◌≡◌, ◌<◌, length, map, option_map, All, IfOk, IfSome};
ghost use Rattle.overlay_plane.specs.BoundContours.{walks_in};
ghost use Rattle.overlay_plane.specs.Islands.{AreInShapes, AreLinks};
ghost use Rattle.overlay_plane.specs.KeptContours.{CanBeBound};
ghost use Rattle.overlay_scan.specs.Scan.{empty_sweep};
ghost use Rattle.overlay_walk.specs.GroupedContours.{plain_contours};
ghost use Rattle.overlay_walk.specs.Steps.{filled_hand, IsLong};
ghost use Rattle.overlay_extract.specs.ChildLinks.{plain_link, HaveOtherChildren};
ghost use Rattle.overlay_extract.specs.Links.{link_at, links_from};

use crate::binding::islands::holes_round;
use crate::binding::known_shapes::shape_count;
use crate::child_link::{ChildLink, sort_links};
use overlay_geom::number::IntNumber;
use overlay_geom::options::ContourDirection;
use overlay_scan::scan::Scan;
use overlay_scan::tree::either::EitherScan;
use overlay_walk::contour::Contour;
use std::alloc::{AllocError, Allocator};

/// Returns the links that [`links`] gives, for a limit of the caller's. Where there are `tree_from` holes or more, the
/// live edges stand in a tree from the first one on. Else they stand in a list, which turns into a tree when it would
/// hold many. The answer does not depend on it.
pub fn link_from<I: IntNumber, A: Allocator + Clone>(
    alloc: A,
    contours: &[Contour<I, A>],
    direction: ContourDirection,
    tree_from: usize,
) -> Result<Vec<ChildLink, A>, AllocError>
    requires long { All (All (IsLong I.limit)) (walks_in (plain_contours I.whole contours.now)) }
    requires bindable { CanBeBound (filled_hand direction) (walks_in (plain_contours I.whole contours.now)) }
    requires in_shapes { AreInShapes (plain_contours I.whole contours.now) }
    ensures links { IfOk result (λ v. AreLinks (filled_hand direction) (plain_contours I.whole contours.now)
        (map plain_link v.items)) }
    ensures children { IfOk result (λ v. HaveOtherChildren (map plain_link v.items)) }
{
    let holes = contours.len() - shape_count(contours);
    let mut scan = EitherScan::for_count(alloc.clone()?, holes, tree_from);
    links(alloc, &mut scan, contours, direction)
}

/// Returns the links of contours that all stand in shapes, shape by shape, in order. Each shape in a hole of another
/// shape has a link: the other shape, the place of the hole among the contours, and the shape. The scan is empty at
/// first; its content afterwards is left open.
pub fn links<I: IntNumber, A: Allocator + Clone, S: Scan<I, usize>>(
    alloc: A,
    scan: &mut S,
    contours: &[Contour<I, A>],
    direction: ContourDirection,
) -> Result<Vec<ChildLink, A>, AllocError>
    requires long { All (All (IsLong I.limit)) (walks_in (plain_contours I.whole contours.now)) }
    requires bindable { CanBeBound (filled_hand direction) (walks_in (plain_contours I.whole contours.now)) }
    requires in_shapes { AreInShapes (plain_contours I.whole contours.now) }
    requires empty { S.content scan.old ≡ empty_sweep }
    ensures links { IfOk result (λ v. AreLinks (filled_hand direction) (plain_contours I.whole contours.now)
        (map plain_link v.items)) }
    ensures children { IfOk result (λ v. HaveOtherChildren (map plain_link v.items)) }
{
    let holes = holes_round(alloc.clone()?, scan, contours, direction)?;
    let mut links = links_by(alloc, contours, &holes)?;
    sort_links(&mut links)?;
    Ok(links)
}

// Returns the links of the shapes to the holes round them, in the order of the shapes.
fn links_by<I: IntNumber, A: Allocator>(
    alloc: A,
    contours: &[Contour<I, A>],
    holes: &[Option<usize>],
) -> Result<Vec<ChildLink, A>, AllocError>
    requires { All (λ h. IfSome h (λ k. k < length contours.now)) holes.now }
    ensures ok { IfOk result
        (λ v. map plain_link v.items ≡ links_from (plain_contours I.whole contours.now) 0 holes.now) }
{
    let mut links = Vec::new(alloc);
    for child in 0..holes.len() {
        if let Some(link) = link_at(contours, child, holes[child]) {
            links.push(link)?;
        }
    }
    Ok(links)
}

// Returns the link of a shape to the hole at this place, if there is a hole and it belongs to a shape.
fn link_at<I: IntNumber, A: Allocator>(
    contours: &[Contour<I, A>],
    child: usize,
    hole: Option<usize>,
) -> Option<ChildLink>
    requires { IfSome hole (λ k. k < length contours.now) }
    ensures { option_map plain_link result ≡ link_at (plain_contours I.whole contours.now) child hole }
{
    let place = hole?;
    let shape = contours[place].role.shape()?;
    Some(ChildLink {
        parent_shape_index: shape,
        parent_contour_index: place,
        child_shape_index: child,
    })
}
