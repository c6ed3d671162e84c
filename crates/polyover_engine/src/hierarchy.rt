//! The shapes of an overlay, and links from holes to the shapes in them.

ghost use Rattle.std.specs.Prelude.{◌≡◌, ◌++◌, MatchResult, map, IfOk, OnOk, string_bytes};
ghost use Rattle.overlay_geom.specs.Flat.{shapes_in};
ghost use Rattle.overlay_geom.specs.declared.solver.Solver.TheVariants.{Rounds};
ghost use Rattle.overlay_extract.specs.ChildLinks.{plain_link};
ghost use Rattle.i_overlay.specs.OneShot.{IsHierarchyOfPaths, MayRefusePaths};
ghost use Rattle.polyover_engine.specs.Answers.{Answers, EndsUnanswered, link_lines};
ghost use Rattle.polyover_engine.specs.Builders.{asked_by};
ghost use Rattle.polyover_text.specs.Grammar.{paths_of};
ghost use Rattle.polyover_text.specs.Points.{FiguresInRange};
ghost use Rattle.polyover_text.specs.Printed.{lines_of_shapes};
ghost use Rattle.polyover_text.specs.Statements.{figures_at};

use crate::builder::asked_builder;
use crate::exit::Exit;
use i_overlay::hierarchy::{ChildLink, FlatShapeHierarchy};
use overlay_geom::error::OverlayError;
use polyover_text::figures::Figures;
use polyover_text::flat_shape_text::flat_shapes_text;
use polyover_text::input::Input;
use polyover_text::link_text::push_link;
use polyover_text::query::{OverlayQuery, Query};
use std::alloc::{AllocError, Allocator};

/// The answer to a query for a hierarchy: the text of its shapes and links. The input is dropped on the way.
pub(crate) fn hierarchy_text<A: Allocator + Copy>(
    alloc: A,
    input: Input<A>,
    query: OverlayQuery,
) -> Result<String<A>, Exit>
    requires { FiguresInRange (figures_at input.figures) }
    ensures { MatchResult result
        (λ text. Answers (figures_at input.figures) (Query.Hierarchy query) (string_bytes text))
        (λ exit. EndsUnanswered (figures_at input.figures) input.line (Query.Hierarchy query) exit) }
{
    let Input { figures, .. } = input;
    let hierarchy = overlay_hierarchy(alloc, figures, query)?;
    Ok(shapes_and_links_text(alloc, &hierarchy)?)
}

// The shapes of an overlay over the contours' arrangement, and their links. The figures are dropped once they are
// added.
fn overlay_hierarchy<A: Allocator + Clone>(
    alloc: A,
    figures: Figures<A>,
    query: OverlayQuery,
) -> Result<FlatShapeHierarchy<i64, A>, OverlayError>
    requires { FiguresInRange (figures_at figures) }
    ensures { MatchResult result
        (λ h. IsHierarchyOfPaths Rounds (asked_by query) (paths_of (figures_at figures))
        (shapes_in (λ z. z) h.shapes.points.items h.shapes.contour_ranges.items h.shapes.shape_ranges.items)
        (map plain_link h.links.items))
        (λ e. MayRefusePaths Rounds (paths_of (figures_at figures)) e) }
{
    let mut builder = asked_builder(alloc, &figures.contours, query)?;
    drop(figures);
    builder.overlay_hierarchy(query.overlay_rule, query.fill_rule)
}

// The text of the shapes, and then a line for each link.
fn shapes_and_links_text<A: Allocator>(
    alloc: A,
    hierarchy: &FlatShapeHierarchy<i64, A>,
) -> Result<String<A>, AllocError>
    ensures { IfOk result (λ text. string_bytes text ≡ lines_of_shapes (shapes_in (λ z. z)
        hierarchy.now.shapes.points.items hierarchy.now.shapes.contour_ranges.items
        hierarchy.now.shapes.shape_ranges.items) ++ link_lines (map plain_link hierarchy.now.links.items)) }
{
    let mut text = flat_shapes_text(alloc, &hierarchy.shapes)?;
    push_links(&mut text, &hierarchy.links)?;
    Ok(text)
}

// Adds a line for each link.
fn push_links<A: Allocator>(text: &mut String<A>, links: &[ChildLink]) -> Result<(), AllocError>
    ensures { OnOk result
        (string_bytes text.new ≡ string_bytes text.old ++ link_lines (map plain_link links.now)) }
{
    for link in links {
        let hole = link.parent_contour_index;
        push_link(text, link.parent_shape_index, hole, link.child_shape_index)?;
    }
    Ok(())
}
