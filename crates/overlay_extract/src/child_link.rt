//! Links from shapes to the shapes that lie in their holes.

ghost use Rattle.std.specs.Prelude.{◌≡◌, ◌↔◌, IsTrue, OnOk};
ghost use Rattle.std.specs.List.Sorted.{IsPermutation};
ghost use Rattle.std.specs.Ordering.{is_eq, is_lt};
ghost use Rattle.overlay_extract.specs.ChildLinks.{plain_link, link_order, is_link_before, AreInOrder};

use std::alloc::{AllocError, Allocator};
use std::cmp::Ordering;

/// A shape that lies in a hole of another shape. Links are ordered by their fields, in the order of the fields.
#[derive(Debug, Clone, Copy, PartialEq, Eq, PartialOrd, Ord)]
pub struct ChildLink {
    /// The number of the shape that has the hole, counted from 0.
    pub parent_shape_index: usize,
    /// The place of the hole among the contours of all shapes, counted from 0.
    pub parent_contour_index: usize,
    /// The number of the shape that lies in the hole.
    pub child_shape_index: usize,
}

/// Compares two links in the derived order: by the number of the parent shape, then by the place of the hole, then by
/// the number of the child shape. This is the law of that order, which agrees with `==`.
pub(crate) fn order_of_links(k: &ChildLink, l: &ChildLink) -> Ordering
    ensures order { result ≡ link_order (plain_link k.now) (plain_link l.now) }
    ensures before { is_lt result ≡ is_link_before k.now l.now }
    ensures equal { IsTrue (is_eq result) ↔ (k.now ≡ l.now) }
{
    k.cmp(l)
}

/// Sorts the links. After a refusal, they stand in some order.
pub(crate) fn sort_links<A: Allocator>(links: &mut Vec<ChildLink, A>) -> Result<(), AllocError>
    ensures permutation { IsPermutation links.old.items links.new.items }
    ensures order { OnOk result (AreInOrder links.new.items) }
{
    links.sort_by(|k, l| order_of_links(k, l))?;
    Ok(())
}
