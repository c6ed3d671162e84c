//! The core that builders share: counted edges, and a mark of a refused query.

ghost use Rattle.std.specs.Prelude.{◌≡◌, ◌↔◌, ◌^◌, ◌<◌, false, [], if◌then◌else◌, All};
ghost use Rattle.std.specs.Prelude.{Ok, Err, IfOk, OnOk, OnErr, IsErrOf};
ghost use Rattle.overlay_geom.specs.Counts.{weight_of_counts};
ghost use Rattle.overlay_geom.specs.Points.{plain_point, plain_points, InRange, AllInRange};
ghost use Rattle.overlay_plane.specs.Arrangements.{IsReachedBy};
ghost use Rattle.overlay_plane.specs.Carried.{edges_in};
ghost use Rattle.overlay_order.specs.Content.{IsContent};
ghost use Rattle.overlay_graph.specs.Arranged.{IsArrangedCarrying};
ghost use Rattle.overlay_parts.specs.Stores.{IsStoreReached};
ghost use Rattle.overlay_builder.specs.AddedSteps.{AddsStep, LeavesStore, StepWeighsTooMuch};
ghost use Rattle.overlay_builder.specs.BuilderCalls.{AddsOneAsAsked, AddsPathAsAsked};
ghost use Rattle.overlay_builder.specs.Held.{nothing_held, plain_held, AnswersQuery};
ghost use Rattle.overlay_builder.specs.PathLists.{carried_weight, path_as, paths_as, AddsAsAsked};
ghost use Rattle.overlay_builder.specs.Paths.{passed_edge, AreLight, IsTakenAs};

use crate::path::{PathKind, StepCounts, add_path};
use crate::single_step::push_step;
use overlay_arrange::content::Content;
use overlay_geom::error::OverlayError;
use overlay_geom::number::IntNumber;
use overlay_geom::point::IntPoint;
use overlay_geom::resource::IntShapeResource;
use overlay_geom::solver::Solver;
use overlay_order::count::EdgeCount;
use std::alloc::{AllocError, Allocator};
use std::marker::Model;

/// The counted edges of a builder, and a mark that a query was refused since the edges were last dropped. While the
/// mark is set, calls refuse with `Failed`.
#[derive(Drop)]
pub struct BuilderCore<I: IntNumber, C: EdgeCount, A: Allocator> {
    content: Content<I, C, A>,
    is_failed: bool,
}

impl<I: IntNumber, C: EdgeCount, A: Allocator> Model for BuilderCore<I, C, A> {
    ghost use Rattle.overlay_plane.specs.Carried.{Carried, edges_in};
    ghost use Rattle.overlay_order.specs.Content.{IsContent};
    ghost use Rattle.overlay_builder.specs.Held.{Held};

    ghost Value = { Held (Carried C) };

    ghost view = { λ b. record { edges = b.content; failed = b.is_failed } };

    ghost invariant = { λ b. IsContent I.limit (edges_in b.content) };
}

impl<I: IntNumber, C: EdgeCount, A: Allocator> BuilderCore<I, C, A> {
    /// Makes a core without edges, with room for `capacity` edges.
    pub fn with_capacity(alloc: A, capacity: usize) -> Result<Self, AllocError>
        ensures empty { IfOk result (λ b. b ≡ nothing_held) }
    {
        Ok(BuilderCore {
            content: Content::with_capacity(alloc, capacity)?,
            is_failed: false,
        })
    }

    /// Drops the edges and clears the mark of a refused query. It takes no memory.
    pub fn clear(&mut self)
        ensures { self.new ≡ nothing_held }
    {
        self.content.clear();
        self.is_failed = false;
    }

    /// Returns the edges, which are in the coordinate range and lighter than 2^31.
    pub fn content(&self) -> &Content<I, C, A>
        ensures edges { result.now ≡ self.now.edges }
        ensures content { IsContent I.limit (edges_in self.now.edges) }
    {
        &self.content
    }

    /// Adds the edge between two points in the coordinate range, carrying `given`. Where the first point is the larger
    /// one, the edge carries the reverse of `given`; otherwise the store stays. Equal points add no edge. The counts of
    /// `given` weigh less than 2^31.
    ///
    /// Refusals leave the core and the store as they were: `Failed`, tested first, `TooManyEdges` where the weight
    /// would reach 2^31, and `Memory`.
    pub fn add_step(
        &mut self,
        from: IntPoint<I>,
        to: IntPoint<I>,
        given: C,
        store: &mut C::Store,
    ) -> Result<(), OverlayError>
        requires light { weight_of_counts (C.counts given) < 2 ^ 31 }
        requires from { InRange I.limit (plain_point I.whole from) }
        requires to { InRange I.limit (plain_point I.whole to) }
        ensures added { AddsOneAsAsked carried_weight
            (AddsStep C.counts C.reverses given (plain_point I.whole from) (plain_point I.whole to))
            (StepWeighsTooMuch C.counts given (plain_point I.whole from) (plain_point I.whole to))
            self.old self.new result }
        ensures store { OnOk result (LeavesStore C.writes (plain_point I.whole from) (plain_point I.whole to)
            store.old store.new) }
        ensures untouched { OnErr result (store.new ≡ store.old) }
    {
        self.check_usable()?;
        push_step(&mut self.content, from, to, given, store)
    }

    /// Refuses with `Failed` where a query was refused since the edges were last dropped. The edges are in the
    /// coordinate range and lighter than 2^31.
    pub fn check_usable(&self) -> Result<(), OverlayError>
        ensures content { IsContent I.limit (edges_in self.now.edges) }
        ensures usable { result ≡ (if self.now.failed then Err OverlayError.Failed else Ok tt) }
    {
        if self.is_failed {
            return Err(OverlayError::Failed);
        }
        Ok(())
    }

    /// Sets or clears the mark of a refused query.
    pub fn set_failed(&mut self, is_failed: bool)
        ensures { self.new ≡ record self.old { failed = is_failed } }
    {
        self.is_failed = is_failed;
    }
}

impl<I: IntNumber, C: EdgeCount, A: Allocator + Clone> BuilderCore<I, C, A> {
    /// Adds a path by the function `add_path`. Returns whether a point of it was left out.
    ///
    /// Refusals leave the core as it was: `Failed`, tested first, `TooManyEdges` where the weight would reach 2^31, and
    /// `Memory`.
    pub fn add_path(
        &mut self,
        points: &[IntPoint<I>],
        kind: PathKind,
        passing: StepCounts<C>,
    ) -> Result<bool, OverlayError>
        requires light { AreLight C.counts passing }
        requires points { AllInRange I.limit (plain_points I.whole points.now) }
        ensures added { AddsPathAsAsked carried_weight
            (path_as kind (passed_edge C.counts passing) (plain_points I.whole points.now)) self.old self.new result }
        ensures left_out { IfOk result (λ leaves_out. (leaves_out ≡ false)
            ↔ IsTakenAs kind (plain_points I.whole points.now) (plain_points I.whole points.now)) }
    {
        self.check_usable()?;
        add_path(&mut self.content, points, kind, passing)
    }

    /// Adds all paths of the resource in order, each by `add_path`. The points are in the coordinate range.
    ///
    /// Refuses with `Failed`, tested first, which changes nothing. Refuses with `TooManyEdges` at a path that would
    /// bring the weight to 2^31, and with `Memory` at some path. After these two, exactly the paths before it are
    /// added.
    pub fn add_paths<R0: IntShapeResource<I>>(
        &mut self,
        resource: &R0,
        kind: PathKind,
        passing: StepCounts<C>,
    ) -> Result<(), OverlayError>
        requires light { AreLight C.counts passing }
        requires points { All (AllInRange I.limit) (R0.paths resource.now) }
        ensures { AddsAsAsked carried_weight (paths_as kind (passed_edge C.counts passing) (R0.paths resource.now))
            self.old self.new result }
    {
        self.check_usable()?;
        let mut cursor = None;
        for index in 0..resource.path_count() {
            self.add_path(resource.path_at(index, &mut cursor), kind, passing)?;
        }
        Ok(())
    }

    /// Brings the edges into an arrangement by this solver, and returns whether an edge was cut. A refusal leaves the
    /// core failed.
    pub fn arrange(&mut self, solver: Solver, store: &mut C::Store) -> Result<bool, OverlayError>
        ensures query { AnswersQuery I.limit solver (plain_held self.old) (plain_held self.new) result }
        ensures carried { OnOk result
            (IsArrangedCarrying C.merges C.splits C.reverses solver self.old.edges self.new.edges) }
        ensures store { IsStoreReached C.writes store.old store.new }
        ensures untouched { IsErrOf result OverlayError.Failed → self.new ≡ self.old }
        ensures cut { IfOk result (λ is_cut. (is_cut ≡ false)
            ↔ IsReachedBy solver [] (edges_in self.old.edges) (edges_in self.new.edges)) }
    {
        self.check_usable()?;
        let arranged = self.content.arrange(solver, store);
        self.is_failed = arranged.is_err();
        arranged
    }
}
