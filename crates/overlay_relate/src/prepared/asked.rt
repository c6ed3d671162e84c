//! Where points lie in a prepared shape.

ghost use Rattle.overlay_geom.specs.Plane.{in_plane};
ghost use Rattle.overlay_geom.specs.Points.{plain_point};
ghost use Rattle.overlay_relate.specs.Bounded.{LiesSo};
ghost use Rattle.overlay_relate.specs.Locations.{IsLocatedBy};

use crate::location::PointLocation;
use crate::prepared::PreparedShape;
use crate::prepared::parts::locate_in;
use overlay_geom::integer::OverlayInt;
use overlay_geom::point::IntPoint;
use std::alloc::Allocator;

impl<I: OverlayInt, A: Allocator> PreparedShape<I, A> {
    /// Returns where the point lies: `Boundary` exactly where it is on an edge of the arrangement with exactly one
    /// filled side, its ends included; else `Inside` exactly where the rule fills the winding there, counted along a
    /// ray downwards; else `Outside`. The point may be any: beyond the coordinate range it is outside. No memory is
    /// taken.
    pub fn locate(&self, point: IntPoint<I>) -> PointLocation
        ensures located { LiesSo self.now (in_plane (plain_point I.whole point)) result }
        ensures by_edges { IsLocatedBy self.now (in_plane (plain_point I.whole point)) result }
    {
        locate_in(&self.edges, &self.blocks, &self.groups, point)
    }
}
