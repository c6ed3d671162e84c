//! Edges that count once each.

ghost use Rattle.overlay_sectors.specs.Once.{once};

use crate::form::EdgeForm;
use overlay_geom::edge::IntEdge;
use overlay_order::count::ShapeCountBoolean;
use overlay_order::edge::CountedEdge;

impl<I: Copy> EdgeForm<I, ShapeCountBoolean> for IntEdge<I> {
    ghost meant = { once };

    /// Returns the edge, which the subject passes once.
    fn edge(self) -> CountedEdge<I, ShapeCountBoolean> {
        let count = ShapeCountBoolean { subj: 1, clip: 0 };
        CountedEdge {
            a: self.a,
            b: self.b,
            count,
        }
    }
}
