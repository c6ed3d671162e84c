//! The builder for predicates: it holds the subject and the clip that predicates are asked of.

use crate::finding::Finding;
use overlay_builder::builder_core::BuilderCore;
use overlay_builder::solver::Solver;
use overlay_geom::fill_rule::FillRule;
use overlay_geom::integer::OverlayInt;
use overlay_order::count::ShapeCountBoolean;
use std::alloc::Allocator;
use std::marker::Model;

mod adders;
mod constructors;
mod lists;
mod predicates;

pub use overlay_geom::options::ShapeType;

/// A builder of counted edges of a subject and a clip that answers predicates: how the two shapes lie to each
/// other. Points on one line with their two neighbours are always dropped from what is added.
///
/// The first query stops at the first edge that tells its answer. The second one, or `relations`, answers all
/// predicates at once. The builder keeps these answers: until something is added, or `fill_rule` changes, further
/// queries look at no edge, whatever `solver` is.
///
/// A query that is refused leaves the builder failed: every call that returns a result then answers
/// `Failed`, until `clear` or `reinit_with_subj_and_clip`.
#[derive(Drop)]
pub struct PredicateOverlay<I: OverlayInt, A: Allocator> {
    /// How edges are split where they meet.
    pub solver: Solver,
    /// Which windings fill a shape.
    pub fill_rule: FillRule,
    // the edges, and whether a query was refused since the builder was last cleared
    core: BuilderCore<I, ShapeCountBoolean, A>,
    // the finding of the last query, under the rule of then, about the edges as they are since
    kept: Option<Finding>,
}

impl<I: OverlayInt, A: Allocator> Model for PredicateOverlay<I, A> {
    ghost use Rattle.overlay_plane.specs.Carried.{edges_in};
    ghost use Rattle.overlay_relate.specs.Findings.{IsSound};
    ghost use Rattle.overlay_relate.specs.PredicateBuilder.{PredicateBuilder};

    ghost Value = { PredicateBuilder };

    ghost view = { λ o. record {
      solver = o.solver;
      fill_rule = o.fill_rule;
      edges = edges_in o.core.edges;
      failed = o.core.failed;
    } };

    ghost invariant = { λ o. IsSound I.limit o.core.failed (edges_in o.core.edges) o.kept };
}
