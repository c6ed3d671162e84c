//! Contours of edges with filled sides and data, and shapes of them.

ghost use Rattle.std.specs.Prelude.{◌≡◌, List, map, IfOk, IsOkUnless};
ghost use Rattle.overlay_geom.specs.declared.point.IntPoint.{IntPoint};

use overlay_geom::error::OverlayError;
use overlay_geom::path::IntPath;
use overlay_geom::point::IntPoint;
use overlay_order::vector::DataVectorEdge;
use std::alloc::Allocator;

/// A closed contour as its edges in order, each with its filled sides, seen on the way along it, and its
/// data.
pub type DataVectorPath<I, D, A> = Vec<DataVectorEdge<I, D>, A>;

/// A shape: its outline, followed by its holes.
pub type DataVectorShape<I, D, A> = Vec<DataVectorPath<I, D, A>, A>;

/// A contour of edges without data.
pub type VectorPath<I, A> = DataVectorPath<I, (), A>;

/// A shape of such contours.
pub type VectorShape<I, A> = DataVectorShape<I, (), A>;

/// What has a path of points.
pub trait ToPath<I> {
    // The points.
    ghost points: { Self → List (IntPoint I) };

    /// Returns the path. The only refusal is `Memory`.
    fn to_path<A: Allocator>(&self, alloc: A) -> Result<IntPath<I, A>, OverlayError>
        ensures path { IfOk result (λ p. p.items ≡ points self.now) }
        ensures err { IsOkUnless result OverlayError.Memory };
}

/// The points at which the edges begin.
impl<I: Copy, D: Copy, B: Allocator> ToPath<I> for DataVectorPath<I, D, B> {
    ghost points = { λ p. map (λ e. e.a) p.items };

    /// Returns the path through the points at which the edges begin. The only refusal is `Memory`.
    fn to_path<A: Allocator>(&self, alloc: A) -> Result<IntPath<I, A>, OverlayError> {
        let mut path = Vec::with_capacity(alloc, self.len())?;
        for edge in self {
            path.push(edge.a)?;
        }
        Ok(path)
    }
}
