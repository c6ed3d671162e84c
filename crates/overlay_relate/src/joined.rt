//! Locations in parts, joined to those in the whole.

ghost use Rattle.std.specs.Prelude.{◌≡◌, ◌+◌, ◌≤◌, length};
ghost use Rattle.overlay_relate.specs.Joined.{joined_by, AreJoined};

use crate::location::PointLocation;
use std::alloc::Allocator;

/// How the parts make the whole.
#[derive(Clone, Copy)]
pub(crate) enum Parts {
    /// Contours of one shape: by exclusive or.
    Contours,
    /// Shapes: by or.
    Shapes,
}

/// Where a point lies in the whole that lies so in two parts.
fn join(parts: Parts, l: PointLocation, m: PointLocation) -> PointLocation
    ensures { result ≡ joined_by parts l m }
{
    match (parts, l, m) {
        (Parts::Contours, PointLocation::Boundary, _) => PointLocation::Boundary,
        (Parts::Contours, PointLocation::Inside, PointLocation::Inside) => PointLocation::Outside,
        (Parts::Contours, PointLocation::Inside, PointLocation::Boundary) => {
            PointLocation::Boundary
        }
        (Parts::Contours, PointLocation::Inside, PointLocation::Outside) => PointLocation::Inside,
        (Parts::Contours, PointLocation::Outside, other) => other,
        (Parts::Shapes, PointLocation::Inside, _) => PointLocation::Inside,
        (Parts::Shapes, PointLocation::Boundary, PointLocation::Inside) => PointLocation::Inside,
        (Parts::Shapes, PointLocation::Boundary, _) => PointLocation::Boundary,
        (Parts::Shapes, PointLocation::Outside, other) => other,
    }
}

/// Joins to the locations in some parts, from a place on, those in one part more.
pub(crate) fn join_from<A: Allocator>(
    parts: Parts,
    locations: &mut Vec<PointLocation, A>,
    start: usize,
    more: &[PointLocation],
)
    requires { start + length more.now ≤ length locations.old.items }
    ensures { AreJoined (joined_by parts) start (length more.now) more.now
        locations.old.items locations.new.items }
{
    for (i, l) in more.iter().enumerate() {
        locations[start + i] = join(parts, locations[start + i], *l);
    }
}
