//! Relations told by merged edges.

ghost use Rattle.std.specs.Prelude.{◌≡◌, Ok, IfOk, IfSome, IsOkUnless};
ghost use Rattle.overlay_geom.specs.Merged.{IsMerged};
ghost use Rattle.overlay_geom.specs.Rules.{is_filled};
ghost use Rattle.overlay_geom.specs.declared.solver.Solver.TheVariants.{Snapping};
ghost use Rattle.overlay_plane.specs.Balance.{HasBalancedCounts};
ghost use Rattle.overlay_plane.specs.Carried.{edges_in};
ghost use Rattle.overlay_plane.specs.Meetings.{MeetInWholePoints};
ghost use Rattle.overlay_order.specs.Content.{IsAscending};
ghost use Rattle.overlay_graph.specs.Arranged.{IsArranged};
ghost use Rattle.overlay_contacts.specs.ExactRelations.{AreExactRelations};

use crate::merged::content_of;
use overlay_arrange::content::Content;
use overlay_contacts::relations::given_relations;
use overlay_contacts::settled::settled_relations;
use overlay_exact::exact_int::ExactInt;
use overlay_geom::error::OverlayError;
use overlay_geom::fill_rule::FillRule;
use overlay_geom::number::IntNumber;
use overlay_geom::solver::Solver;
use overlay_given::uncrossed::{MeetingKind, meeting_kind};
use overlay_order::count::ShapeCountBoolean;
use overlay_relate::relations::Relations;
use std::alloc::Allocator;

/// Returns the relations of subject and clip, told by merged edges with balanced counts: by their filled sides, where
/// they meet in ends alone; where none cross, by those of an arrangement, which moves no point; else by a walk along
/// them. The only refusal is `Memory`.
pub(crate) fn merged_relations<I: ExactInt, A: Allocator + Clone>(
    merged: &Content<I, ShapeCountBoolean, A>,
    rule: FillRule,
) -> Result<Relations, OverlayError>
    requires ascending { IsAscending (edges_in merged.now) }
    requires balanced { HasBalancedCounts (edges_in merged.now) }
    ensures ok { IfOk result (λ r. (given : _) → IsMerged given (edges_in merged.now)
        → AreExactRelations (is_filled rule) given r) }
    ensures err { IsOkUnless result OverlayError.Memory }
{
    let alloc = merged.allocator().clone()?;
    let edges = merged.edges();
    let kind = meeting_kind(alloc.clone()?, edges)?;
    match kind {
        MeetingKind::InEnds => return Ok(settled_relations(merged, rule)?),
        MeetingKind::Uncrossed => {
            let told = unless_heavy(whole_relations(merged, rule))?;
            if let Some(relations) = told {
                return Ok(relations);
            }
        }
        MeetingKind::Crossed => {}
    }
    Ok(given_relations(alloc, edges, rule)?)
}

// Returns the answer, or None where pieces weigh 2^31. The only refusal is `Memory`.
fn unless_heavy(told: Result<Relations, OverlayError>) -> Result<Option<Relations>, OverlayError>
    ensures ok { IfOk result (λ kept. IfSome kept (λ r. told ≡ Ok r)) }
    ensures err { IsOkUnless result OverlayError.Memory }
{
    match told {
        Ok(relations) => Ok(Some(relations)),
        Err(OverlayError::Memory) => Err(OverlayError::Memory),
        Err(_) => Ok(None),
    }
}

// Returns the relations of edges that meet in whole points alone, or overlap: those of their arrangement.
fn whole_relations<I: IntNumber, A: Allocator + Clone>(
    merged: &Content<I, ShapeCountBoolean, A>,
    rule: FillRule,
) -> Result<Relations, OverlayError>
    requires balanced { HasBalancedCounts (edges_in merged.now) }
    requires whole { MeetInWholePoints (edges_in merged.now) }
    ensures ok { IfOk result (λ r. (given : _) → IsMerged given (edges_in merged.now)
        → AreExactRelations (is_filled rule) given r) }
{
    let arranged = arranged_copy(merged)?;
    Ok(settled_relations(&arranged, rule)?)
}

// Returns a copy of the content that snap rounding has brought into an arrangement.
fn arranged_copy<I: IntNumber, A: Allocator + Clone>(
    content: &Content<I, ShapeCountBoolean, A>,
) -> Result<Content<I, ShapeCountBoolean, A>, OverlayError>
    ensures ok { IfOk result (λ c. IsArranged Snapping (edges_in content.now) (edges_in c)) }
{
    let mut copy = content_of(content.allocator().clone()?, content.edges())?;
    copy.arrange(Solver::Snapping, &mut ())?;
    Ok(copy)
}
