//! Strings that are added to a builder: lines, open paths, closed ones, one by one or all paths of a resource.

ghost use Rattle.std.specs.Prelude.{All};
ghost use Rattle.overlay_geom.specs.Points.{plain_points, AllInRange};
ghost use Rattle.overlay_string.specs.StringBuilder.{StringBuilderAddsOne, StringBuilderAdds};
ghost use Rattle.overlay_string.specs.StringPaths.{open_string, closed_string, open_strings, closed_strings};
ghost use Rattle.overlay_string.specs.StringPaths.{paths_of_lines};

use crate::lines::BorrowedLines;
use crate::role::PathRole;
use crate::string_overlay::StringOverlay;
use overlay_geom::error::OverlayError;
use overlay_geom::integer::OverlayInt;
use overlay_geom::path::IntLine;
use overlay_geom::point::IntPoint;
use overlay_geom::resource::IntShapeResource;
use std::alloc::Allocator;

impl<I: OverlayInt, A: Allocator + Clone> StringOverlay<I, A> {
    /// Adds a string from each point to the next; a step between equal points is none, and no step leads back from
    /// the last point to the first. No point is dropped. The points are in the coordinate range.
    ///
    /// Refusals, which leave the builder as it was: `Failed` before anything else, `TooManyEdges` where the weight
    /// would come to 2^31, `Memory`.
    pub fn add_string_path(&mut self, path: &[IntPoint<I>]) -> Result<(), OverlayError>
        requires { AllInRange I.limit (plain_points I.whole path.now) }
        ensures { StringBuilderAddsOne (open_string (plain_points I.whole path.now)) self.old self.new result }
    {
        self.add_one(path, PathRole::OpenString)
    }

    /// Adds a string as `add_string_path` does, with the step from the last point to the first. Refusals are those of
    /// that call.
    pub fn add_string_contour(&mut self, contour: &[IntPoint<I>]) -> Result<(), OverlayError>
        requires { AllInRange I.limit (plain_points I.whole contour.now) }
        ensures { StringBuilderAddsOne (closed_string (plain_points I.whole contour.now)) self.old self.new result }
    {
        self.add_one(contour, PathRole::ClosedString)
    }

    /// Adds the string from the first point of the line to the second one, as `add_string_path` does. Refusals are
    /// those of that call.
    pub fn add_string_line(&mut self, line: IntLine<I>) -> Result<(), OverlayError>
        requires { AllInRange I.limit (plain_points I.whole line) }
        ensures { StringBuilderAddsOne (open_string (plain_points I.whole line)) self.old self.new result }
    {
        self.add_one(&line, PathRole::OpenString)
    }

    /// Adds the lines in order, each as `add_string_line` does. The points are in the coordinate range.
    ///
    /// Refusals: `Failed` before anything else, and then nothing is changed; `TooManyEdges` at a line that would
    /// bring the weight to 2^31; `Memory` at some line, it is not said which. After these two exactly the lines
    /// before that one are added, and the builder has not failed: what it holds answers for these. To go on after
    /// `Memory`, make a new one, since none of them is taken out again and those that are in would count twice; or
    /// add line by line with `add_string_line`, where a refusal adds nothing, and go on at the refused one.
    pub fn add_string_lines(&mut self, lines: &[IntLine<I>]) -> Result<(), OverlayError>
        requires { All (AllInRange I.limit) (paths_of_lines I.whole lines.now) }
        ensures { StringBuilderAdds (open_strings (paths_of_lines I.whole lines.now)) self.old self.new result }
    {
        self.add_string_source(&BorrowedLines { lines })
    }

    /// Adds all paths of the resource in order as open strings, each as `add_string_path` does. The points are in the
    /// coordinate range.
    ///
    /// Refusals: `Failed` before anything else, and then nothing is changed; `TooManyEdges` at a path that would
    /// bring the weight to 2^31; `Memory` at some path, it is not said which. After these two exactly the paths
    /// before that one are added, and the builder has not failed: what it holds answers for these. To go on after
    /// `Memory`, make a new one, since none of them is taken out again and those that are in would count twice; or
    /// add path by path with `add_string_path`, where a refusal adds nothing, and go on at the refused one.
    pub fn add_string_source<R0: IntShapeResource<I>>(
        &mut self,
        resource: &R0,
    ) -> Result<(), OverlayError>
        requires { All (AllInRange I.limit) (R0.paths resource.now) }
        ensures { StringBuilderAdds (open_strings (R0.paths resource.now)) self.old self.new result }
    {
        self.add_all(resource, PathRole::OpenString)
    }

    /// Adds all paths of the resource in order as closed strings, each as `add_string_contour` does. The points are
    /// in the coordinate range. Refusals are those of `add_string_source`.
    pub fn add_string_contour_source<R0: IntShapeResource<I>>(
        &mut self,
        resource: &R0,
    ) -> Result<(), OverlayError>
        requires { All (AllInRange I.limit) (R0.paths resource.now) }
        ensures { StringBuilderAdds (closed_strings (R0.paths resource.now)) self.old self.new result }
    {
        self.add_all(resource, PathRole::ClosedString)
    }
}
