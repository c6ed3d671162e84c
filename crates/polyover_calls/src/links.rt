//! Which shapes lie in which holes, as C has it.

ghost use Rattle.std.specs.Prelude.{◌≡◌, map, IfOk, IsOkUnless};
ghost use Rattle.polyover_calls.specs.Linked.{link_of};

use crate::status::Status;
use i_overlay::hierarchy::ChildLink;
use std::alloc::Global;

/// A shape that lies in a hole of another one, by numbers counted from 0.
#[repr(C)]
#[derive(Clone, Copy)]
pub struct Link {
    /// The number of the shape to which the hole belongs.
    pub parent_shape: usize,
    /// The place of the hole among the contours of all shapes.
    pub parent_contour: usize,
    /// The number of the shape that lies in the hole.
    pub child_shape: usize,
}

/// The links as C has them. The only refusal is `Memory`.
pub(crate) fn links_of(alloc: Global, links: &[ChildLink]) -> Result<Vec<Link, Global>, Status>
    ensures links { IfOk result (λ v. v.items ≡ map link_of links.now) }
    ensures only { IsOkUnless result Status.Memory }
{
    let mut given = Vec::new(alloc);
    for link in links {
        given.push(Link {
            parent_shape: link.parent_shape_index,
            parent_contour: link.parent_contour_index,
            child_shape: link.child_shape_index,
        })?;
    }
    Ok(given)
}
