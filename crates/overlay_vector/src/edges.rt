//! The edges that a builder holds, one after another.

ghost use Rattle.std.specs.Prelude.{◌≡◌, map};
ghost use Rattle.overlay_vector.specs.HeldEdges.{ends_held};

use overlay_geom::number::IntNumber;
use overlay_geom::path::IntLine;
use overlay_order::data::CountWithData;
use overlay_order::edge::CountedEdge;
use std::marker::Model;

/// The two ends of each edge that a builder holds, the smaller one first, in the order in which it holds
/// them.
#[derive(Drop)]
pub struct Edges<'a, I, D> {
    // those that are still to come
    rest: &'a [CountedEdge<I, CountWithData<D>>],
}

impl<'a, I, D> Model for Edges<'a, I, D> {
    ghost use Rattle.std.specs.Prelude.{List, map};
    ghost use Rattle.overlay_geom.specs.declared.point.IntPoint.{IntPoint};
    ghost use Rattle.overlay_vector.specs.HeldEdges.{ends_held};

    ghost Value = { List (List (IntPoint I)) };

    ghost view = { λ e. map ends_held e.rest.now };
}

impl<'a, I: IntNumber, D: Copy> Edges<'a, I, D> {
    /// The ends of these edges.
    pub(crate) fn new(edges: &'a [CountedEdge<I, CountWithData<D>>]) -> Self
        ensures { result ≡ map ends_held edges.now }
    {
        Edges { rest: edges }
    }
}

impl<'a, I: IntNumber, D: Copy> Iterator for Edges<'a, I, D> {
    ghost use Rattle.std.specs.Iterator.{YieldsFirst, item_count};

    type Item = IntLine<I>;

    ghost next_gives = { YieldsFirst (λ rest. rest) };

    ghost remaining = { item_count (λ rest. rest) };

    /// Returns the ends of the next edge, if there is one.
    fn next(&mut self) -> Option<IntLine<I>> {
        let (first, rest) = self.rest.split_first()?;
        self.rest = rest;
        Some([first.a, first.b])
    }
}
