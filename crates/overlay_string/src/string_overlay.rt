//! The builder for strings: it holds a shape, and strings that lie over it.

use overlay_builder::balanced_graph::BalancedGraph;
use overlay_builder::builder_core::BuilderCore;
use overlay_geom::integer::OverlayInt;
use overlay_order::string_count::ShapeCountString;
use std::alloc::Allocator;
use std::marker::Model;

mod adders;
mod clip;
mod constructors;
mod deprecated;
mod strings;
mod views;

pub use overlay_geom::options::IntOverlayOptions;

/// A builder that holds counted edges of a shape, and of strings: open or closed lines that lie over it. Points on
/// one line with their two neighbours are dropped from the contours of the shape, and never from strings.
///
/// A query that is refused leaves the builder failed: every call that returns a result then answers `Failed`.
#[derive(Drop)]
pub struct StringOverlay<I: OverlayInt, A: Allocator> {
    /// Options of the caller. No call reads them.
    pub options: IntOverlayOptions<I::WideUInt>,
    // the edges, and whether a query was refused
    core: BuilderCore<I, ShapeCountString, A>,
    // what the last view shows; no answer reads it
    viewed: Option<BalancedGraph<I, ShapeCountString, A>>,
}

impl<I: OverlayInt, A: Allocator> Model for StringOverlay<I, A> {
    ghost use Rattle.overlay_plane.specs.Carried.{edges_in};
    ghost use Rattle.overlay_builder.specs.GivenPaths.{IsBalancedUnlessFailed};
    ghost use Rattle.overlay_string.specs.StringBuilder.{StringBuilder};

    ghost Value = { StringBuilder I.WideUInt };

    ghost view = { λ o. record {
      options = o.options;
      edges = edges_in o.core.edges;
      failed = o.core.failed;
    } };

    ghost invariant = { λ o. IsBalancedUnlessFailed o.core.failed (edges_in o.core.edges) };
}
