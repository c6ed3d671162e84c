//! Where a point lies in the shape of edges as they are given, in whatever form these are kept.

ghost use Rattle.std.specs.Prelude.{◌≡◌, true, false, Some, length, map};
ghost use Rattle.overlay_geom.specs.Edges.{ends_of};
ghost use Rattle.overlay_geom.specs.Plane.{in_plane};
ghost use Rattle.overlay_geom.specs.Points.{plain_point};
ghost use Rattle.overlay_geom.specs.Rules.{is_filled};
ghost use Rattle.overlay_order.specs.Content.{plain_edge, plain_edges, IsContent, IsHeld};
ghost use Rattle.overlay_relate.specs.Blocks.{plain_blocks};
ghost use Rattle.overlay_sectors.specs.Blocks.{AreBlocked};
ghost use Rattle.overlay_sectors.specs.Located.{LiesIn};
ghost use Rattle.overlay_sectors.specs.Rays.{plain_ray, IsRayHeld};
ghost use Rattle.overlay_sectors.specs.Seen.{IsSeenUpTo, AddsFilling};
ghost use Rattle.overlay_sectors.specs.Sectors.{fills_sector, leads_from};

use crate::blocks::{BlockedEdges, passed_from};
use crate::flank::Flank;
use crate::form::EdgeForm;
use crate::near::{leads_from, winding_near};
use crate::seen::Seen;
use overlay_geom::edge::IntEdge;
use overlay_geom::fill_rule::FillRule;
use overlay_geom::number::IntNumber;
use overlay_geom::point::IntPoint;
use overlay_order::count::EdgeCount;
use overlay_order::edge::CountedEdge;
use overlay_relate::blocks::Block;
use overlay_relate::form::FormOf;
use overlay_relate::location::PointLocation;

/// Returns where the point lies in the shape of the edges under the fill rule. Without edges it is outside. It looks
/// at the edges of blocks that may be below the point, and again for each edge through it. No memory is taken.
pub fn locate<I: IntNumber, C: EdgeCount, E: EdgeForm<I, C>, B: FormOf<Block<I>>>(
    shape: &BlockedEdges<E, B>,
    fill_rule: FillRule,
    p: IntPoint<I>,
) -> PointLocation
    requires content { IsContent I.limit (plain_edges I.whole C.counts (map E.meant shape.now.edges.now)) }
    requires blocked { AreBlocked (plain_edges I.whole C.counts (map E.meant shape.now.edges.now))
        (plain_blocks I.whole (map B.meant shape.now.blocks.now))
        (plain_blocks I.whole (map B.meant shape.now.groups.now)) }
    ensures { LiesIn (is_filled fill_rule) (plain_edges I.whole C.counts (map E.meant shape.now.edges.now))
        (in_plane (plain_point I.whole p)) result }
{
    let asked = Asked {
        shape: *shape,
        fill_rule,
        p,
    };
    sectors_seen(&asked).location()
}

// A point that is asked for, and the shape in which.
#[derive(Clone, Copy)]
struct Asked<'a, I, E, B> {
    // the edges of the shape
    shape: BlockedEdges<'a, E, B>,
    // which windings fill it
    fill_rule: FillRule,
    // the point
    p: IntPoint<I>,
}

// Returns what is found among all sectors round the point.
fn sectors_seen<I: IntNumber, C: EdgeCount, E: EdgeForm<I, C>, B: FormOf<Block<I>>>(
    asked: &Asked<I, E, B>,
) -> Seen
    requires content { IsContent I.limit (plain_edges I.whole C.counts (map E.meant asked.now.shape.edges.now)) }
    requires blocked { AreBlocked (plain_edges I.whole C.counts (map E.meant asked.now.shape.edges.now))
        (plain_blocks I.whole (map B.meant asked.now.shape.blocks.now))
        (plain_blocks I.whole (map B.meant asked.now.shape.groups.now)) }
    ensures { IsSeenUpTo (is_filled asked.now.fill_rule)
        (plain_edges I.whole C.counts (map E.meant asked.now.shape.edges.now))
        (in_plane (plain_point I.whole asked.now.p)) (length asked.now.shape.edges.now) result }
{
    let left = fills_sector(asked, Flank::Left, None);
    let right = fills_sector(asked, Flank::Right, None);
    let none = Seen::nothing();
    let lowest = none.with(left);
    let mut seen = lowest.with(right);
    let edges = asked.shape.edges;
    let mut at = 0;
    while at < edges.len() {
        let next = passed_from(asked.shape.blocks, asked.shape.groups, at, asked.p);
        if at < next {
            at = next;
        } else {
            let e = edges[at].edge();
            let above = seen_above(seen, asked, &e, Flank::Left);
            seen = seen_above(above, asked, &e, Flank::Right);
            at += 1;
        }
    }
    seen
}

// Returns what is found with the sector next above the edge, if it leads from the point into the flank.
fn seen_above<I: IntNumber, C: EdgeCount, E: EdgeForm<I, C>, B: FormOf<Block<I>>>(
    seen: Seen,
    asked: &Asked<I, E, B>,
    e: &CountedEdge<I, C>,
    flank: Flank,
) -> Seen
    requires content { IsContent I.limit (plain_edges I.whole C.counts (map E.meant asked.now.shape.edges.now)) }
    requires blocked { AreBlocked (plain_edges I.whole C.counts (map E.meant asked.now.shape.edges.now))
        (plain_blocks I.whole (map B.meant asked.now.shape.blocks.now))
        (plain_blocks I.whole (map B.meant asked.now.shape.groups.now)) }
    requires edge { IsHeld I.limit (plain_edge I.whole C.counts e.now) }
    ensures ray { leads_from flank (ends_of (plain_edge I.whole C.counts e.now))
        (in_plane (plain_point I.whole asked.now.p)) ≡ true
        → AddsFilling (fills_sector (is_filled asked.now.fill_rule) flank
        (plain_edges I.whole C.counts (map E.meant asked.now.shape.edges.now))
        (in_plane (plain_point I.whole asked.now.p)) (Some (ends_of (plain_edge I.whole C.counts e.now)))) seen result }
    ensures other { leads_from flank (ends_of (plain_edge I.whole C.counts e.now))
        (in_plane (plain_point I.whole asked.now.p)) ≡ false → result ≡ seen }
{
    if leads_from(e, asked.p, flank) {
        let ray = IntEdge { a: e.a, b: e.b };
        let is_filled = fills_sector(asked, flank, Some(ray));
        return seen.with(is_filled);
    }
    seen
}

// Returns whether the sector is filled.
fn fills_sector<I: IntNumber, C: EdgeCount, E: EdgeForm<I, C>, B: FormOf<Block<I>>>(
    asked: &Asked<I, E, B>,
    flank: Flank,
    ray: Option<IntEdge<I>>,
) -> bool
    requires content { IsContent I.limit (plain_edges I.whole C.counts (map E.meant asked.now.shape.edges.now)) }
    requires blocked { AreBlocked (plain_edges I.whole C.counts (map E.meant asked.now.shape.edges.now))
        (plain_blocks I.whole (map B.meant asked.now.shape.blocks.now))
        (plain_blocks I.whole (map B.meant asked.now.shape.groups.now)) }
    requires ray { IsRayHeld I.limit (plain_ray I.whole ray) }
    ensures { result ≡ fills_sector (is_filled asked.now.fill_rule) flank
        (plain_edges I.whole C.counts (map E.meant asked.now.shape.edges.now))
        (in_plane (plain_point I.whole asked.now.p)) (plain_ray I.whole ray) }
{
    asked
        .fill_rule
        .fills(winding_near(&asked.shape, asked.p, flank, ray))
}
