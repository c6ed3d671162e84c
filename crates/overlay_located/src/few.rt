//! A few edges through a point.

ghost use Rattle.std.specs.Prelude.{◌≡◌, ◌∷◌, [], true, IfSome};
ghost use Rattle.overlay_located.specs.Few.{few_edges};

use overlay_order::edge::CountedEdge;

/// At most four edges.
#[derive(Clone, Copy)]
pub(crate) struct Few<I: Copy, C: Copy> {
    /// The last that was added.
    pub first: Option<CountedEdge<I, C>>,
    /// The one before it.
    pub second: Option<CountedEdge<I, C>>,
    /// The one before that.
    pub third: Option<CountedEdge<I, C>>,
    /// The first that was added, where there are four.
    pub fourth: Option<CountedEdge<I, C>>,
}

impl<I: Copy, C: Copy> Few<I, C> {
    /// Returns no edges.
    pub(crate) fn none() -> Self
        ensures { few_edges result ≡ [] }
    {
        Few {
            first: None,
            second: None,
            third: None,
            fourth: None,
        }
    }

    /// Returns whether there is no edge.
    pub(crate) fn is_none(self) -> bool
        ensures { result ≡ true → few_edges self ≡ [] }
    {
        self.first.is_none()
            && self.second.is_none()
            && self.third.is_none()
            && self.fourth.is_none()
    }

    /// Returns the edges with one more, if there are fewer than four.
    pub(crate) fn with(self, e: CountedEdge<I, C>) -> Option<Self>
        ensures { IfSome result (λ f. few_edges f ≡ e ∷ few_edges self) }
    {
        match self.fourth {
            Some(_) => None,
            None => Some(Few {
                first: Some(e),
                second: self.first,
                third: self.second,
                fourth: self.third,
            }),
        }
    }
}
