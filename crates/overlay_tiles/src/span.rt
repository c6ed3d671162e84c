//! The box of the points of a resource.

ghost use Rattle.std.specs.Prelude.{◌≡◌, ◌++◌, ◌∷◌, [], All, IfSome, List, Some};
ghost use Rattle.overlay_geom.specs.Plane.{Point};
ghost use Rattle.overlay_geom.specs.Points.{plain_point, plain_points, AllInRange};
ghost use Rattle.overlay_tiles.specs.Spans.{AreBoundsInRange, IsBoxFound, plain_bounds, points_of_paths};
ghost use Rattle.overlay_tiles.specs.Spans.{plain_span, includes};

use overlay_geom::number::IntNumber;
use overlay_geom::point::IntPoint;
use overlay_geom::resource::IntShapeResource;

/// Coordinates from a least to a greatest one.
#[derive(Debug, Clone, Copy)]
pub struct IntSpan<I> {
    /// The least one.
    pub least: I,
    /// The greatest one.
    pub greatest: I,
}

/// A box with upright and level sides.
#[derive(Debug, Clone, Copy)]
pub struct IntBounds<I> {
    /// The x of its points.
    pub x: IntSpan<I>,
    /// The y of its points.
    pub y: IntSpan<I>,
}

impl<I: IntNumber> IntSpan<I> {
    // The span of this coordinate alone.
    fn of_one(at: I) -> Self
        ensures { result ≡ record { least = at; greatest = at } }
    {
        IntSpan {
            least: at,
            greatest: at,
        }
    }

    // The span with this coordinate too.
    fn with(self, at: I) -> Self
        ensures { plain_span I.whole result ≡ includes (plain_span I.whole self) (I.whole at) }
    {
        if at.compare(self.least).is_lt() {
            IntSpan {
                least: at,
                greatest: self.greatest,
            }
        } else if self.greatest.compare(at).is_lt() {
            IntSpan {
                least: self.least,
                greatest: at,
            }
        } else {
            self
        }
    }
}

impl<I: IntNumber> IntBounds<I> {
    // The box of the points of the box, if there is one, and of one more point.
    fn with(bounds: Option<Self>, point: IntPoint<I>) -> Self
        ensures { (seen : List Point) → IsBoxFound I.whole seen bounds →
            IsBoxFound I.whole (seen ++ plain_point I.whole point ∷ []) (Some result) }
    {
        match bounds {
            Some(b) => IntBounds {
                x: b.x.with(point.x),
                y: b.y.with(point.y),
            },
            None => IntBounds {
                x: IntSpan::of_one(point.x),
                y: IntSpan::of_one(point.y),
            },
        }
    }
}

/// The box of the points that a box was found for, and of further ones.
fn widened<I: IntNumber>(
    bounds: Option<IntBounds<I>>,
    points: &[IntPoint<I>],
) -> Option<IntBounds<I>>
    ensures { (seen : List Point) → IsBoxFound I.whole seen bounds →
        IsBoxFound I.whole (seen ++ plain_points I.whole points.now) result }
{
    let mut wider = bounds;
    for point in points {
        wider = Some(IntBounds::with(wider, *point));
    }
    wider
}

/// The box of all points of the resource, if it has any. They are in the coordinate range. It takes no memory.
pub(crate) fn bounds_of<I: IntNumber, R0: IntShapeResource<I>>(
    resource: &R0,
) -> Option<IntBounds<I>>
    requires { All (AllInRange I.limit) (R0.paths resource.now) }
    ensures found { IsBoxFound I.whole (points_of_paths (R0.paths resource.now)) result }
    ensures in_range { IfSome result (λ b. AreBoundsInRange I.limit (plain_bounds I.whole b)) }
{
    let mut bounds = None;
    let mut cursor = None;
    for index in 0..resource.path_count() {
        bounds = widened(bounds, resource.path_at(index, &mut cursor));
    }
    bounds
}
