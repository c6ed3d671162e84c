//! The contours round the region where rules hold: bound to shapes, or in a list.

ghost use Rattle.std.specs.Prelude.{◌≡◌, [], map, All, IfOk, OnOk, OnErr};
ghost use Rattle.std.specs.List.{AllZip};
ghost use Rattle.overlay_geom.specs.Flat.{paths_in, shapes_in};
ghost use Rattle.overlay_geom.specs.FlatShapes.{AreShapesPacked};
ghost use Rattle.overlay_geom.specs.Packed.{IsPacked};
ghost use Rattle.overlay_geom.specs.Paths.{plain_shapes};
ghost use Rattle.overlay_geom.specs.Plane.{points_of};
ghost use Rattle.overlay_geom.specs.Thinned.{IsKeptOrThinned};
ghost use Rattle.overlay_plane.specs.Balance.{HasBalancedCounts};
ghost use Rattle.overlay_graph.specs.Graphs.{graph_edges};
ghost use Rattle.overlay_walk.specs.Steps.{IsLong};
ghost use Rattle.overlay_walk.specs.Walks.{plain_walks};
ghost use Rattle.overlay_extract.specs.Results.{asked, AreKeptWalks, IsResult, IsContoursResult};

use crate::assemble::{assembled, contour};
use crate::binding::placed::placed_contours;
use crate::flat_shapes::flat_assembled;
use overlay_geom::flat::contours::FlatContoursBuffer;
use overlay_geom::flat::shapes::FlatShapesBuffer;
use overlay_geom::number::IntNumber;
use overlay_geom::options::IntOverlayOptions;
use overlay_geom::overlay_rule::OverlayRule;
use overlay_geom::path::IntShapes;
use overlay_graph::graph::Graph;
use overlay_order::count::EdgeCount;
use overlay_walk::area::large_walks;
use overlay_walk::as_graph::AsGraph;
use overlay_walk::buffer::BooleanExtractionBuffer;
use overlay_walk::selected_walks::selected_walks;
use overlay_walk::step::Step;
use std::alloc::{AllocError, Allocator};

/// Returns the shapes round the region where the graph's fill rule and the overlay rule hold of the windings of the
/// graph's edges. Each shape is its outline and then its holes, both in the order in which they are found. With `ogc`
/// no contour visits a point twice, and the holes of an outline's own group come before the other holes of its shape.
/// Contours below the minimum area are left out; an outline left out takes the holes of its group with it. The graph,
/// or the reference to it, is dropped once the steps are selected. The buffer lends its room.
pub fn extract_shapes<I: IntNumber, A: Allocator + Clone, G: AsGraph<I, A> + Drop>(
    graph: G,
    overlay_rule: OverlayRule,
    options: IntOverlayOptions<I::WideUInt>,
    buffer: &mut BooleanExtractionBuffer<I, A>,
) -> Result<IntShapes<I, A>, AllocError>
    requires { HasBalancedCounts (graph_edges (G.graph graph)) }
    ensures result { IfOk result (λ v. IsResult
        (asked I.Wide.width I.WideUInt.natural (G.graph graph).fill_rule overlay_rule options)
        (graph_edges (G.graph graph)) (plain_shapes I.whole v.items)) }
{
    let alloc = graph.allocator().clone()?;
    let placed = placed_contours(graph, overlay_rule, options, buffer)?;
    let keeps_points = options.preserve_output_collinear;
    assembled(alloc, &placed.contours, &placed.places, keeps_points)
}

/// Returns the shapes that [`extract_shapes`] gives, with their points in a single list: contours and points in their
/// order, without gaps. It drops the graph and the buffer before it puts the shapes together.
pub fn extract_flat_shapes<I: IntNumber, C: EdgeCount, A: Allocator + Clone>(
    graph: Graph<I, C, A>,
    overlay_rule: OverlayRule,
    options: IntOverlayOptions<I::WideUInt>,
    mut buffer: BooleanExtractionBuffer<I, A>,
) -> Result<FlatShapesBuffer<I, A>, AllocError>
    requires { HasBalancedCounts (graph_edges graph) }
    ensures result { IfOk result (λ b. IsResult
        (asked I.Wide.width I.WideUInt.natural graph.fill_rule overlay_rule options)
        (graph_edges graph) (shapes_in I.whole b.points.items b.contour_ranges.items b.shape_ranges.items)) }
    ensures packed { IfOk result
        (λ b. AreShapesPacked b.points.items b.contour_ranges.items b.shape_ranges.items) }
{
    let alloc = graph.allocator().clone()?;
    let placed = placed_contours(graph, overlay_rule, options, &mut buffer)?;
    drop(buffer);
    let keeps_points = options.preserve_output_collinear;
    flat_assembled(alloc, &placed.contours, &placed.places, keeps_points)
}

/// Writes the contours round the region where the rules hold to the output, in the order in which they are found. They
/// are cut without groups, whatever the options say. Contours below the minimum area are left out. The earlier content
/// of the output is dropped. The buffer lends its room. After a refusal the output is empty.
pub fn extract_contours<I: IntNumber, C: EdgeCount, A: Allocator + Clone, B: Allocator>(
    graph: &Graph<I, C, A>,
    overlay_rule: OverlayRule,
    options: IntOverlayOptions<I::WideUInt>,
    buffer: &mut BooleanExtractionBuffer<I, A>,
    output: &mut FlatContoursBuffer<I, B>,
) -> Result<(), AllocError>
    requires { HasBalancedCounts (graph_edges graph.now) }
    ensures result { OnOk result (IsContoursResult
        (asked I.Wide.width I.WideUInt.natural graph.now.fill_rule overlay_rule options)
        (graph_edges graph.now) (paths_in I.whole output.new.points.items output.new.ranges.items)) }
    ensures packed { OnOk result (IsPacked output.new.points.items output.new.ranges.items) }
    ensures no_points { OnErr result (output.new.points.items ≡ []) }
    ensures no_ranges { OnErr result (output.new.ranges.items ≡ []) }
{
    emptied(output);
    let written = write_contours(graph, overlay_rule, options, buffer, output);
    if written.is_err() {
        emptied(output);
    }
    written
}

/// Drops all contours of the output.
pub fn emptied<I: IntNumber, B: Allocator>(output: &mut FlatContoursBuffer<I, B>)
    ensures points { output.new.points.items ≡ [] }
    ensures ranges { output.new.ranges.items ≡ [] }
{
    output.points.clear();
    output.ranges.clear();
}

// Writes the contours to the output, which is empty at first. On a refusal some of them may stay.
fn write_contours<I: IntNumber, C: EdgeCount, A: Allocator + Clone, B: Allocator>(
    graph: &Graph<I, C, A>,
    overlay_rule: OverlayRule,
    options: IntOverlayOptions<I::WideUInt>,
    buffer: &mut BooleanExtractionBuffer<I, A>,
    output: &mut FlatContoursBuffer<I, B>,
) -> Result<(), AllocError>
    requires balanced { HasBalancedCounts (graph_edges graph.now) }
    requires no_points { output.old.points.items ≡ [] }
    requires no_ranges { output.old.ranges.items ≡ [] }
    ensures result { OnOk result (IsContoursResult
        (asked I.Wide.width I.WideUInt.natural graph.now.fill_rule overlay_rule options)
        (graph_edges graph.now) (paths_in I.whole output.new.points.items output.new.ranges.items)) }
    ensures packed { OnOk result (IsPacked output.new.points.items output.new.ranges.items) }
{
    let walks = kept_walks(graph, overlay_rule, options, buffer)?;
    let keeps_points = options.preserve_output_collinear;
    add_contours(graph.allocator(), &walks, keeps_points, output)
}

// Adds the contours of the walks to the output, which is empty at first.
fn add_contours<I: IntNumber, A: Allocator + Clone, B: Allocator>(
    alloc: &A,
    walks: &[Vec<Step<I>, A>],
    keeps_points: bool,
    output: &mut FlatContoursBuffer<I, B>,
) -> Result<(), AllocError>
    requires long { All (All (IsLong I.limit)) (plain_walks I.whole walks.now) }
    requires no_points { output.old.points.items ≡ [] }
    requires no_ranges { output.old.ranges.items ≡ [] }
    ensures shown { OnOk result (AllZip (IsKeptOrThinned keeps_points) (map points_of (plain_walks I.whole walks.now))
        (paths_in I.whole output.new.points.items output.new.ranges.items)) }
    ensures packed { OnOk result (IsPacked output.new.points.items output.new.ranges.items) }
{
    for walk in walks {
        let contour = contour(alloc.clone()?, walk, keeps_points)?;
        let Ok(()) = output.add_contour(&contour) else {
            return Err(AllocError);
        };
    }
    Ok(())
}

// Returns the walks of the graph's selected steps, cut without groups, that reach the minimum area.
fn kept_walks<I: IntNumber, C: EdgeCount, A: Allocator + Clone>(
    graph: &Graph<I, C, A>,
    overlay_rule: OverlayRule,
    options: IntOverlayOptions<I::WideUInt>,
    buffer: &mut BooleanExtractionBuffer<I, A>,
) -> Result<Vec<Vec<Step<I>, A>, A>, AllocError>
    requires { HasBalancedCounts (graph_edges graph.now) }
    ensures kept { IfOk result (λ ws. AreKeptWalks
        (asked I.Wide.width I.WideUInt.natural graph.now.fill_rule overlay_rule options)
        (graph_edges graph.now) (plain_walks I.whole ws.items)) }
    ensures long { IfOk result (λ ws. All (All (IsLong I.limit)) (plain_walks I.whole ws.items)) }
{
    let walks = selected_walks(graph, overlay_rule, options.output_direction, buffer)?;
    large_walks(graph.allocator().clone()?, walks, options.min_output_area)
}
