//! Values in other forms.

ghost use Rattle.std.specs.Prelude.{◌≡◌};

use overlay_geom::edge::IntEdge;

/// A form in which a value of the type `T` is kept: as the value itself, or as a caller's own type, which may have to
/// look otherwise.
pub trait FormOf<T>: Copy {
    // The value that is kept.
    ghost meant: { Self → T };

    /// The value in this form.
    fn form(value: T) -> Self
        ensures { meant result ≡ value };

    /// The value that is kept.
    fn value(self) -> T
        ensures { result ≡ meant self };
}

impl<I: Copy> FormOf<IntEdge<I>> for IntEdge<I> {
    ghost meant = { λ e. e };

    /// Returns the edge.
    fn form(value: IntEdge<I>) -> IntEdge<I> {
        value
    }

    /// Returns the edge.
    fn value(self) -> IntEdge<I> {
        self
    }
}
