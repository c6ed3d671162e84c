//! Counted edges in other forms.

ghost use Rattle.std.specs.Prelude.{◌≡◌};
ghost use Rattle.overlay_order.specs.declared.edge.CountedEdge.{CountedEdge};

use overlay_order::edge::CountedEdge;

/// A form in which a counted edge is kept: as the edge itself, or as a caller's own type, which may have to look
/// otherwise.
pub trait EdgeForm<I, C>: Copy {
    // The edge that is kept.
    ghost meant: { Self → CountedEdge I C };

    /// Returns the edge that is kept.
    fn edge(self) -> CountedEdge<I, C>
        ensures { result ≡ meant self };
}

impl<I: Copy, C: Copy> EdgeForm<I, C> for CountedEdge<I, C> {
    ghost meant = { λ e. e };

    /// Returns the edge.
    fn edge(self) -> CountedEdge<I, C> {
        self
    }
}
