//! The builder for exact predicates: it holds the subject and the clip that predicates are asked of.

use overlay_builder::builder_core::BuilderCore;
use overlay_exact::exact_int::ExactInt;
use overlay_geom::fill_rule::FillRule;
use overlay_order::count::ShapeCountBoolean;
use std::alloc::Allocator;
use std::marker::Model;

mod adders;
mod constructors;
mod queries;

pub use overlay_geom::options::ShapeType;

/// A builder of counted edges of a subject and a clip that answers predicates: how the two shapes lie to each
/// other. Nothing is rounded: each answer is that of the contours as they were added. Points on one line with their
/// two neighbours are dropped from what is added.
///
/// A query changes nothing, and keeps no answer. `relations` tells all predicates. A call of one predicate ends sooner
/// where a piece of the first edge of a shape tells it.
#[derive(Drop)]
pub struct ExactPredicates<I: ExactInt, A: Allocator> {
    /// Which windings fill a shape.
    pub fill_rule: FillRule,
    // the edges; the core has not failed
    core: BuilderCore<I, ShapeCountBoolean, A>,
}

impl<I: ExactInt, A: Allocator> Model for ExactPredicates<I, A> {
    ghost use Rattle.overlay_plane.specs.Carried.{edges_in};
    ghost use Rattle.overlay_predicates.specs.ExactBuilder.{ExactBuilder, IsUsable};

    ghost Value = { ExactBuilder };

    ghost view = { λ o. record { fill_rule = o.fill_rule; edges = edges_in o.core.edges } };

    ghost invariant = { λ o. IsUsable o.core.failed (edges_in o.core.edges) };
}
