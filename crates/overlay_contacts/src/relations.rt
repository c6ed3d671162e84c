//! All relations of a subject and a clip as given.

ghost use Rattle.std.specs.Prelude.{◌≡◌, All, IfOk};
ghost use Rattle.overlay_geom.specs.Merged.{IsMerged};
ghost use Rattle.overlay_geom.specs.Rules.{is_filled};
ghost use Rattle.overlay_plane.specs.Balance.{HasBalancedCounts};
ghost use Rattle.overlay_order.specs.Content.{plain_edges, IsHeld, IsAscending};
ghost use Rattle.overlay_contacts.specs.ExactRelations.{AreExactRelations, relations_by};

use overlay_exact::exact_int::ExactInt;
use overlay_geom::fill_rule::FillRule;
use overlay_given::relations::{Contacts, find_contacts};
use overlay_order::count::EdgeCount;
use overlay_order::edge::CountedEdge;
use overlay_relate::relations::Relations;
use std::alloc::{AllocError, Allocator};

/// Returns the relations of subject and clip, told by their merged edges with balanced counts. Nothing is rounded: each
/// answer is that of the contours as given. The error is that memory is refused.
pub fn given_relations<I: ExactInt, C: EdgeCount, A: Allocator + Clone>(
    alloc: A,
    edges: &[CountedEdge<I, C>],
    rule: FillRule,
) -> Result<Relations, AllocError>
    requires held { All (IsHeld I.limit) (plain_edges I.whole C.counts edges.now) }
    requires ascending { IsAscending (plain_edges I.whole C.counts edges.now) }
    requires balanced { HasBalancedCounts (plain_edges I.whole C.counts edges.now) }
    ensures ok { IfOk result (λ r. (content : _) → IsMerged content (plain_edges I.whole C.counts edges.now)
        → AreExactRelations (is_filled rule) content r) }
{
    let found = find_contacts(alloc, edges, rule)?;
    Ok(relations_by(found))
}

// Returns the relations that the contacts tell.
fn relations_by(found: Contacts) -> Relations
    ensures { result ≡ relations_by found }
{
    let intersects = found.beside_piece || found.in_points;
    Relations {
        intersects,
        interiors_intersect: found.interiors.interiors_intersect,
        touches: intersects && !found.interiors.interiors_intersect,
        point_intersects: found.in_points,
        within: found.interiors.within,
        disjoint: !intersects,
        covers: found.interiors.covers,
    }
}
