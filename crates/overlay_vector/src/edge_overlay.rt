//! The builder for edges with data.

ghost use Rattle.std.specs.Prelude.{IfOk, IsOkUnless};
ghost use Rattle.overlay_vector.specs.EdgeBuilder.{IsNewEdgeBuilder};

use overlay_builder::builder_core::BuilderCore;
use overlay_builder::solver::Solver;
use overlay_geom::error::OverlayError;
use overlay_geom::integer::OverlayInt;
use overlay_order::data::{CountWithData, OverlayEdgeData};
use overlay_walk::buffer::BooleanExtractionBuffer;
use std::alloc::Allocator;
use std::marker::Model;

mod add;
mod held;
mod shapes;
mod stores;
mod vectors;

pub use overlay_geom::options::{ContourDirection, IntOverlayOptions, ShapeType};

/// A builder that holds counted edges of a subject and of a clip, each with data of the caller's, and
/// answers queries on them.
///
/// Edges are added one by one, and need not be closed contours. Where they are cut and merged, their data
/// is split, reversed and merged (`OverlayEdgeData`), with the builder's store at hand.
///
/// A query that is refused leaves the builder failed: every call that returns a result then answers
/// `Failed`.
#[derive(Drop)]
pub struct EdgeOverlay<I: OverlayInt, D: OverlayEdgeData, A: Allocator> {
    /// How edges are split where they meet.
    pub solver: Solver,
    /// How output looks. Edges are added as they are given.
    pub options: IntOverlayOptions<I::WideUInt>,
    /// Room that queries use again. What it holds changes no answer.
    pub boolean_buffer: Option<BooleanExtractionBuffer<I, A>>,
    // what the data needs beside the edges
    store: D::Store,
    // the edges, and whether a query was refused
    core: BuilderCore<I, CountWithData<D>, A>,
}

impl<I: OverlayInt, D: OverlayEdgeData, A: Allocator> Model for EdgeOverlay<I, D, A> {
    ghost use Rattle.overlay_vector.specs.EdgeBuilder.{EdgeBuilder};

    ghost Value = { EdgeBuilder I.WideUInt D D.Store };

    ghost view = { λ o. record {
      solver = o.solver;
      options = o.options;
      boolean_buffer = o.boolean_buffer;
      edges = o.core.edges;
      store = o.store;
      failed = o.core.failed;
    } };
}

impl<I: OverlayInt, D: OverlayEdgeData, A: Allocator + Clone> EdgeOverlay<I, D, A> {
    /// An empty builder with room for `capacity` edges, which keeps points on one line in its output, and
    /// has no buffer and the default store. The only refusal is `Memory`.
    pub fn new(alloc: A, capacity: usize) -> Result<Self, OverlayError>
        ensures made { IfOk result (λ o. IsNewEdgeBuilder I.WideUInt.natural o) }
        ensures store { IfOk result (λ o. D.Store.is_default o.store) }
        ensures err { IsOkUnless result OverlayError.Memory }
    {
        Ok(EdgeOverlay {
            solver: Solver::ABSOLUTE,
            options: IntOverlayOptions::keep_output_points(),
            boolean_buffer: None,
            store: D::Store::default(),
            core: BuilderCore::with_capacity(alloc, capacity)?,
        })
    }
}
