//! A piece of a string.

ghost use Rattle.std.specs.Prelude.{◌≡◌};
ghost use Rattle.overlay_geom.specs.Plane.{is_forward};
ghost use Rattle.overlay_geom.specs.Points.{plain_point};
ghost use Rattle.overlay_string.specs.Pieces.{plain_piece, turned, way_of};

use overlay_geom::number::IntNumber;
use overlay_geom::point::IntPoint;
use overlay_order::edge::compare_points;

/// A piece of a string, straight on from one point to another.
#[derive(Clone, Copy)]
pub(crate) struct Piece<I> {
    pub(crate) from: IntPoint<I>,
    pub(crate) to: IntPoint<I>,
}

/// The way in which pieces are joined.
#[derive(Clone, Copy, PartialEq)]
pub(crate) enum Way {
    /// As the pieces run, from a path's first piece on.
    Onward,
    /// Against them, from a path's last piece back.
    Back,
}

impl<I: IntNumber> Piece<I> {
    // Whether it runs from its smaller to its larger end.
    fn is_forward(self) -> bool
        ensures { result ≡ is_forward (plain_piece I.whole self) }
    {
        compare_points(self.from, self.to).is_lt()
    }

    /// The way in which the path is walked of which it is the first open piece: on from it where it runs from its
    /// smaller to its larger end, and else back.
    pub(crate) fn way(self) -> Way
        ensures { result ≡ way_of (plain_piece I.whole self) }
    {
        if self.is_forward() {
            Way::Onward
        } else {
            Way::Back
        }
    }

    /// The point where it begins, seen on the way.
    pub(crate) fn start(self, way: Way) -> IntPoint<I>
        ensures { plain_point I.whole result ≡ (turned way (plain_piece I.whole self)).from }
    {
        match way {
            Way::Onward => self.from,
            Way::Back => self.to,
        }
    }

    /// The point where it ends, seen on the way.
    pub(crate) fn end(self, way: Way) -> IntPoint<I>
        ensures { plain_point I.whole result ≡ (turned way (plain_piece I.whole self)).to }
    {
        match way {
            Way::Onward => self.to,
            Way::Back => self.from,
        }
    }
}
