//! Where a point lies in the shape of edges, by what these told of many points together.

ghost use Rattle.std.specs.Prelude.{map, All};
ghost use Rattle.overlay_geom.specs.Plane.{in_plane};
ghost use Rattle.overlay_geom.specs.Points.{plain_point};
ghost use Rattle.overlay_geom.specs.Rules.{is_filled};
ghost use Rattle.overlay_order.specs.Content.{plain_edges, IsContent};
ghost use Rattle.overlay_relate.specs.Blocks.{plain_blocks};
ghost use Rattle.overlay_sectors.specs.Blocks.{AreBlocked};
ghost use Rattle.overlay_sectors.specs.Located.{LiesIn};
ghost use Rattle.overlay_located.specs.Queries.{plain_query, IsTold};

use crate::query::Query;
use crate::told::location_at;
use overlay_geom::fill_rule::FillRule;
use overlay_geom::number::IntNumber;
use overlay_geom::point::IntPoint;
use overlay_order::count::EdgeCount;
use overlay_relate::blocks::Block;
use overlay_relate::form::FormOf;
use overlay_relate::location::PointLocation;
use overlay_sectors::blocks::BlockedEdges;
use overlay_sectors::form::EdgeForm;
use overlay_sectors::located::locate;

/// Returns what `locate` does, by what `together::told_of` told of the point at its place. Where that tells nothing of
/// the point, or there is no such place, the point is asked for alone. No memory is taken.
pub fn locate_told<I: IntNumber, C: EdgeCount, E: EdgeForm<I, C>, B: FormOf<Block<I>>>(
    shape: &BlockedEdges<E, B>,
    fill_rule: FillRule,
    told: &[Query<I, C>],
    place: usize,
    p: IntPoint<I>,
) -> PointLocation
    requires content { IsContent I.limit (plain_edges I.whole C.counts (map E.meant shape.now.edges.now)) }
    requires blocked { AreBlocked (plain_edges I.whole C.counts (map E.meant shape.now.edges.now))
        (plain_blocks I.whole (map B.meant shape.now.blocks.now))
        (plain_blocks I.whole (map B.meant shape.now.groups.now)) }
    requires told { All (λ q. IsTold (plain_edges I.whole C.counts (map E.meant shape.now.edges.now))
        (plain_query I.whole C.counts q)) told.now }
    ensures { LiesIn (is_filled fill_rule) (plain_edges I.whole C.counts (map E.meant shape.now.edges.now))
        (in_plane (plain_point I.whole p)) result }
{
    match location_at(fill_rule, told, place, p) {
        Some(location) => location,
        None => locate(shape, fill_rule, p),
    }
}
