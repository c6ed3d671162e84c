//! Shapes as they are given, that are asked again and again where points lie.

ghost use Rattle.std.specs.Prelude.{◌≡◌, All, false, length, IfOk, IfErr};
ghost use Rattle.overlay_geom.specs.declared.options.ShapeType.TheVariants.{Subject};
ghost use Rattle.overlay_geom.specs.Plane.{in_plane};
ghost use Rattle.overlay_geom.specs.Points.{plain_point, plain_points, AllInRange};
ghost use Rattle.overlay_builder.specs.GivenPaths.{paths_for, added_paths};
ghost use Rattle.overlay_builder.specs.PathLists.{MayRefuseBuilder};
ghost use Rattle.overlay_relate.specs.Answers.{AnswersEach};
ghost use Rattle.overlay_located.specs.GivenShapes.{IsShapeOf, TellsLocation};
ghost use Rattle.overlay_located.specs.Queries.{plain_query, IsTold};
ghost use Rattle.overlay_order.specs.Counts.{boolean_counts};

use crate::located::locate_told;
use crate::query::Query;
use crate::together::{pays, told_of};
use overlay_builder::boolean::passing;
use overlay_builder::builder_core::BuilderCore;
use overlay_builder::path::PathKind;
use overlay_geom::error::OverlayError;
use overlay_geom::fill_rule::FillRule;
use overlay_geom::integer::OverlayInt;
use overlay_geom::options::ShapeType;
use overlay_geom::point::IntPoint;
use overlay_geom::resource::IntShapeResource;
use overlay_order::count::ShapeCountBoolean;
use overlay_relate::blocks::Block;
use overlay_relate::location::PointLocation;
use overlay_sectors::blocks::{BLOCK, BlockedEdges, GROUP, blocks_over};
use overlay_sectors::located::locate;
use std::alloc::{AllocError, Allocator};
use std::marker::Model;

/// A shape under a fill rule, made from any contours, which may cross and overlap. It is asked again and again where
/// points lie: inside, outside or on its boundary. Nothing is rounded.
#[derive(Drop)]
pub struct ExactShape<I: OverlayInt, A: Allocator> {
    // which windings fill the shape
    fill_rule: FillRule,
    // the edges of the contours
    pub(crate) core: BuilderCore<I, ShapeCountBoolean, A>,
    // blocks of 64 of them
    pub(crate) blocks: Vec<Block<I>, A>,
    // and of 4096
    pub(crate) groups: Vec<Block<I>, A>,
}

impl<I: OverlayInt, A: Allocator> Model for ExactShape<I, A> {
    ghost use Rattle.overlay_plane.specs.Carried.{edges_in};
    ghost use Rattle.overlay_relate.specs.Blocks.{plain_blocks};
    ghost use Rattle.overlay_sectors.specs.Blocks.{AreBlocked};
    ghost use Rattle.overlay_located.specs.GivenShapes.{GivenShape};

    ghost Value = { GivenShape };

    ghost view = { λ s. record { fill_rule = s.fill_rule; edges = edges_in s.core.edges } };

    ghost invariant = { λ s. AreBlocked (edges_in s.core.edges) (plain_blocks I.whole s.blocks.items)
        (plain_blocks I.whole s.groups.items) };
}

impl<I: OverlayInt, A: Allocator + Clone> ExactShape<I, A> {
    /// The shape that the paths of the resource make under the fill rule, each a closed contour. Points on one line
    /// with their two neighbours are dropped. The points are in the coordinate range.
    ///
    /// Refusals: `TooManyEdges` where a path, added after those before it, would bring the weight to 2^31; `Memory`.
    pub fn new<R0: IntShapeResource<I>>(
        alloc: A,
        resource: &R0,
        fill_rule: FillRule,
    ) -> Result<Self, OverlayError>
        requires { All (AllInRange I.limit) (R0.paths resource.now) }
        ensures ok { IfOk result (IsShapeOf fill_rule (paths_for Subject (R0.paths resource.now))) }
        ensures err { IfErr result
            (MayRefuseBuilder (added_paths false (paths_for Subject (R0.paths resource.now)))) }
    {
        let mut core = BuilderCore::with_capacity(alloc.clone()?, 0)?;
        core.add_paths(resource, PathKind::Thinned, passing(ShapeType::Subject))?;
        let blocks = blocks_over(alloc.clone()?, core.content().edges(), BLOCK)?;
        let groups = blocks_over(alloc, core.content().edges(), GROUP)?;
        Ok(ExactShape {
            fill_rule,
            core,
            blocks,
            groups,
        })
    }
}

impl<I: OverlayInt, A: Allocator> ExactShape<I, A> {
    /// Returns where the point lies: `Inside` where all points off the contours near it are filled, `Outside` where
    /// none is, and `Boundary` where there are both however near. The point may be any. No memory is taken.
    pub fn locate(&self, point: IntPoint<I>) -> PointLocation
        ensures { TellsLocation self.now (in_plane (plain_point I.whole point)) result }
    {
        let shape = BlockedEdges {
            edges: self.core.content().edges(),
            blocks: &self.blocks,
            groups: &self.groups,
        };
        locate(&shape, self.fill_rule, point)
    }

    // Returns where the point lies, by what is told at the place where that suffices.
    fn locate_by(
        &self,
        told: &[Query<I, ShapeCountBoolean>],
        place: usize,
        point: IntPoint<I>,
    ) -> PointLocation
        requires { All (λ q. IsTold self.now.edges (plain_query I.whole boolean_counts q)) told.now }
        ensures { TellsLocation self.now (in_plane (plain_point I.whole point)) result }
    {
        let shape = BlockedEdges {
            edges: self.core.content().edges(),
            blocks: &self.blocks,
            groups: &self.groups,
        };
        locate_told(&shape, self.fill_rule, told, place, point)
    }

    // Returns where the point lies, by what is told at the place, if anything is told.
    fn locate_with(
        &self,
        told: &Result<Vec<Query<I, ShapeCountBoolean>, A>, AllocError>,
        place: usize,
        point: IntPoint<I>,
    ) -> PointLocation
        requires { IfOk told.now
            (λ v. All (λ q. IsTold self.now.edges (plain_query I.whole boolean_counts q)) v.items) }
        ensures { TellsLocation self.now (in_plane (plain_point I.whole point)) result }
    {
        match told {
            Ok(told) => self.locate_by(told, place, point),
            Err(_) => self.locate(point),
        }
    }

    // Writes where each of the points lies, in their order.
    fn locate_each(
        &self,
        told: &Result<Vec<Query<I, ShapeCountBoolean>, A>, AllocError>,
        points: &[IntPoint<I>],
        out: &mut [PointLocation],
    )
        requires told { IfOk told.now
            (λ v. All (λ q. IsTold self.now.edges (plain_query I.whole boolean_counts q)) v.items) }
        requires counted { length out.old ≡ length points.now }
        ensures { AnswersEach (λ v l. TellsLocation self.now (in_plane v) l) (plain_points I.whole points.now) out.new }
    {
        for i in 0..points.len() {
            out[i] = self.locate_with(told, i, points[i]);
        }
    }
}

impl<I: OverlayInt, A: Allocator + Clone> ExactShape<I, A> {
    /// Writes where each of the points lies to its place in `out`, as `locate` tells it of each. There are as many
    /// places as points. Where that pays (`together::pays`), points are asked together, in memory that is given back.
    /// Else, and where memory is refused, each is asked alone.
    pub fn locate_all(&self, points: &[IntPoint<I>], out: &mut [PointLocation])
        requires { length out.old ≡ length points.now }
        ensures { AnswersEach (λ v l. TellsLocation self.now (in_plane v) l) (plain_points I.whole points.now) out.new }
    {
        let told = self.told_if_it_pays(points);
        self.locate_each(&told, points, out);
    }

    // Returns what the edges tell of each of the points, in their order, or of none.
    fn told_if_it_pays(
        &self,
        points: &[IntPoint<I>],
    ) -> Result<Vec<Query<I, ShapeCountBoolean>, A>, AllocError>
        ensures { IfOk result (λ v. All (λ q. IsTold self.now.edges (plain_query I.whole boolean_counts q)) v.items) }
    {
        if pays(self.core.content().edges().len(), points.len()) {
            self.told(points)
        } else {
            let alloc = self.blocks.allocator().clone()?;
            Ok(Vec::new(alloc))
        }
    }

    // Returns what the edges tell of each of the points, in their order.
    fn told(
        &self,
        points: &[IntPoint<I>],
    ) -> Result<Vec<Query<I, ShapeCountBoolean>, A>, AllocError>
        ensures { IfOk result (λ v. All (λ q. IsTold self.now.edges (plain_query I.whole boolean_counts q)) v.items) }
    {
        let alloc = self.blocks.allocator().clone()?;
        told_of(alloc, self.core.content().edges(), points)
    }
}
