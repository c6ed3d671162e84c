//! Prepared shapes, made from contours.

ghost use Rattle.std.specs.Prelude.{◌≡◌, All, IfOk, IfErr};
ghost use Rattle.overlay_geom.specs.declared.options.ShapeType.TheVariants.{Subject};
ghost use Rattle.overlay_geom.specs.Points.{AllInRange};
ghost use Rattle.overlay_geom.specs.Resolved.{plain_edges, IsLongEdge};
ghost use Rattle.overlay_builder.specs.GivenPaths.{paths_for};
ghost use Rattle.overlay_relate.specs.Prepared.{IsPreparedOf, MayRefusePreparing};

use crate::blocks::blocks_over;
use crate::boundary::boundary_of;
use crate::predicate_overlay::PredicateOverlay;
use crate::prepared::PreparedShape;
use crate::prepared::parts::{BLOCK, GROUP};
use overlay_builder::solver::Solver;
use overlay_geom::edge::IntEdge;
use overlay_geom::error::OverlayError;
use overlay_geom::fill_rule::FillRule;
use overlay_geom::integer::OverlayInt;
use overlay_geom::options::ShapeType;
use overlay_geom::resource::IntShapeResource;
use std::alloc::{AllocError, Allocator};

impl<I: OverlayInt, A: Allocator + Clone> PreparedShape<I, A> {
    /// The shape that the paths of the resource make under the fill rule. Each is a closed contour; it may cross
    /// itself and others. Points on one line with their two neighbours are dropped, and the edges are split by the
    /// solver, as by `PredicateOverlay`. The points are in the coordinate range.
    ///
    /// Refusals: `TooManyEdges` where a path, added after those before it, or a round of splitting would bring the
    /// weight to 2^31; `NotSettled` (never with `Solver::SNAPPED`) where 64 rounds leave edges that still meet;
    /// `Memory`.
    pub fn new<R0: IntShapeResource<I>>(
        alloc: A,
        resource: &R0,
        fill_rule: FillRule,
        solver: Solver,
    ) -> Result<Self, OverlayError>
        requires { All (AllInRange I.limit) (R0.paths resource.now) }
        ensures ok { IfOk result (IsPreparedOf solver fill_rule (paths_for Subject (R0.paths resource.now))) }
        ensures err { IfErr result (MayRefusePreparing solver (paths_for Subject (R0.paths resource.now))) }
    {
        let mut overlay = PredicateOverlay::with_settings(alloc.clone()?, 0, fill_rule, solver)?;
        overlay.add_source(resource, ShapeType::Subject)?;
        overlay.arrange()?;
        let graph = overlay.graph()?;
        let edges = boundary_of(alloc.clone()?, &graph)?;
        let shape = PreparedShape::bounded_by(alloc, edges)?;
        Ok(shape)
    }

    // The shape that these edges bound.
    fn bounded_by(alloc: A, edges: Vec<IntEdge<I>, A>) -> Result<Self, AllocError>
        requires { All (IsLongEdge I.limit) (plain_edges I.whole edges.items) }
        ensures ok { IfOk result (λ s. s ≡ plain_edges I.whole edges.items) }
    {
        let blocks = blocks_over(alloc.clone()?, &edges, BLOCK)?;
        let groups = blocks_over(alloc, &edges, GROUP)?;
        Ok(PreparedShape {
            edges,
            blocks,
            groups,
        })
    }
}
