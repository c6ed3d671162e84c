//! Views of a shape and the strings over it: made once, and asked often.

ghost use Rattle.std.specs.Prelude.{IfOk, IsOkUnless};
ghost use Rattle.overlay_geom.specs.Paths.{plain_shapes};
ghost use Rattle.overlay_graph.specs.Graphs.{graph_edges};
ghost use Rattle.overlay_string.specs.StringSlices.{IsSlicedBy, IsSlicedWhole};

use crate::string_rule::StringRule;
use overlay_builder::balanced_graph::BalancedGraph;
use overlay_extract::slicing::sliced_shapes::sliced_shapes;
use overlay_geom::error::OverlayError;
use overlay_geom::integer::OverlayInt;
use overlay_geom::options::IntOverlayOptions;
use overlay_geom::path::IntShapes;
use overlay_order::string_count::ShapeCountString;
use std::alloc::Allocator;

/// A view of what a builder for strings holds: the edges of its arrangement, with the sides that the shape fills under
/// one fill rule. It is made by `StringOverlay::build_graph_view`, and borrows the builder; it can be asked as often as
/// wanted. An extraction that is refused leaves it as it was.
#[derive(Drop)]
pub struct StringGraph<'a, I: OverlayInt, A: Allocator> {
    pub(crate) graph: &'a BalancedGraph<I, ShapeCountString, A>,
}

impl<I: OverlayInt, A: Allocator + Clone> StringGraph<'_, I, A> {
    /// The shapes into which the strings cut the shape: of each its outline first, counterclockwise, and then its
    /// holes, clockwise. None is too small, and no point is dropped from them.
    ///
    /// Each side of an edge, string or not, that the shape fills is passed once, unless one slice lies on both
    /// sides of the edge: a string that ends inside the shape cuts nothing there. No contour visits a point twice.
    /// The only refusal is `Memory`.
    pub fn extract_shapes(&self, string_rule: StringRule) -> Result<IntShapes<I, A>, OverlayError>
        ensures sliced { IfOk result (λ v. IsSlicedWhole I.Wide.width self.now.graph.now.fill_rule
            (graph_edges self.now.graph.now) (plain_shapes I.whole v.items)) }
        ensures err { IsOkUnless result OverlayError.Memory }
    {
        self.extract_shapes_custom(string_rule, IntOverlayOptions::default())
    }

    /// Returns the shapes of `extract_shapes`, in the direction `output_direction` and without the contours whose
    /// area is below `min_output_area`. Of the holes that stay all go to the shape that stays, where it is the
    /// only one; where several stay, each goes to its parent among what is left, and one without a parent is left
    /// out. No other option is read. The only refusal is `Memory`.
    pub fn extract_shapes_custom(
        &self,
        string_rule: StringRule,
        options: IntOverlayOptions<I::WideUInt>,
    ) -> Result<IntShapes<I, A>, OverlayError>
        ensures sliced { IfOk result (λ v. IsSlicedBy I.Wide.width I.WideUInt.natural options self.now.graph.now
            (plain_shapes I.whole v.items)) }
        ensures err { IsOkUnless result OverlayError.Memory }
    {
        match string_rule {
            StringRule::Slice => Ok(sliced_shapes(
                self.graph.graph(),
                options.output_direction,
                options.min_output_area,
            )?),
        }
    }
}
