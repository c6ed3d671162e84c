//! Test of balanced counts: at each point, equally many steps of the subject enter and leave, and equally many of the
//! clip.

ghost use Rattle.std.specs.Prelude.{◌≡◌, ◌^◌, ◌↔◌, ◌+ℤ◌, ◌++◌, pos, map, IsTrue, IfOk, OnOk};
ghost use Rattle.std.specs.List.Sorted.{IsPermutation};
ghost use Rattle.overlay_geom.specs.Numbers.{Within};
ghost use Rattle.overlay_plane.specs.Balance.{HasBalancedCounts};
ghost use Rattle.overlay_order.specs.Content.{plain_edges, IsContent};
ghost use Rattle.overlay_graph.specs.Ends.{plain_ends, counted_start, counted_stop, starts_and_stops};
ghost use Rattle.overlay_graph.specs.Ends.{AreSummable, CancelOut};

use crate::counted_end::CountedEnd;
use crate::windings::Windings;
use overlay_geom::number::IntNumber;
use overlay_order::count::EdgeCount;
use overlay_order::edge::{CountedEdge, compare_points};
use std::alloc::{AllocError, Allocator};

/// Returns whether the counts of the edges are balanced: at each point, equally many steps of the subject enter and
/// leave, and equally many of the clip.
pub fn is_balanced<I: IntNumber, C: EdgeCount, A: Allocator>(
    alloc: A,
    edges: &[CountedEdge<I, C>],
) -> Result<bool, AllocError>
    requires { IsContent I.limit (plain_edges I.whole C.counts edges.now) }
    ensures balanced { IfOk result (λ b. IsTrue b ↔ HasBalancedCounts (plain_edges I.whole C.counts edges.now)) }
{
    let mut ends = counted_ends(alloc, edges)?;
    ends.sort_by(|m, n| compare_points(m.point, n.point))?;
    Ok(cancel_out(&ends))
}

/// Returns the ends of all edges with their counts: first the smaller ends, which are already sorted where the edges
/// are.
fn counted_ends<I: IntNumber, C: EdgeCount, A: Allocator>(
    alloc: A,
    edges: &[CountedEdge<I, C>],
) -> Result<Vec<CountedEnd<I>, A>, AllocError>
    ensures ok { IfOk result (λ v.
        plain_ends I.whole v.items ≡ starts_and_stops (plain_edges I.whole C.counts edges.now)) }
{
    let mut ends = Vec::with_capacity(alloc, edges.len())?;
    push_starts(&mut ends, edges)?;
    push_stops(&mut ends, edges)?;
    Ok(ends)
}

/// Adds the smaller ends of the edges.
fn push_starts<I: IntNumber, C: EdgeCount, A: Allocator>(
    ends: &mut Vec<CountedEnd<I>, A>,
    edges: &[CountedEdge<I, C>],
) -> Result<(), AllocError>
    ensures ok { OnOk result (plain_ends I.whole ends.new.items
        ≡ plain_ends I.whole ends.old.items ++ map counted_start (plain_edges I.whole C.counts edges.now)) }
{
    for edge in edges {
        let subj = i64::from(edge.count.subj());
        let clip = i64::from(edge.count.clip());
        ends.push(CountedEnd {
            point: edge.a,
            subj: -subj,
            clip: -clip,
        })?;
    }
    Ok(())
}

/// Adds the larger ends of the edges.
fn push_stops<I: IntNumber, C: EdgeCount, A: Allocator>(
    ends: &mut Vec<CountedEnd<I>, A>,
    edges: &[CountedEdge<I, C>],
) -> Result<(), AllocError>
    ensures ok { OnOk result (plain_ends I.whole ends.new.items
        ≡ plain_ends I.whole ends.old.items ++ map counted_stop (plain_edges I.whole C.counts edges.now)) }
{
    for edge in edges {
        let subj = i64::from(edge.count.subj());
        let clip = i64::from(edge.count.clip());
        ends.push(CountedEnd {
            point: edge.b,
            subj,
            clip,
        })?;
    }
    Ok(())
}

/// Returns whether the counts of the ends at each point add up to 0.
fn cancel_out<I: IntNumber>(ends: &[CountedEnd<I>]) -> bool
    requires { AreSummable (plain_ends I.whole ends.now) }
    ensures { IsTrue result ↔ CancelOut (plain_ends I.whole ends.now) }
{
    if ends.is_empty() {
        return true;
    }
    let first = &ends[0];
    let mut point = first.point;
    let mut sum = Windings { subj: 0, clip: 0 };
    for end in ends {
        if compare_points(point, end.point).is_lt() {
            if !is_zero(sum) {
                return false;
            }
            point = end.point;
        }
        sum = with_end(sum, end);
    }
    is_zero(sum)
}

/// Returns whether both sums are 0.
fn is_zero(sum: Windings) -> bool
    ensures { IsTrue result ↔ (sum.subj ≡ pos 0) × (sum.clip ≡ pos 0) }
{
    sum.subj == 0 && sum.clip == 0
}

/// Adds the counts of an end to the sums.
fn with_end<I>(sum: Windings, end: &CountedEnd<I>) -> Windings
    requires subj { Within (2 ^ 33) (sum.subj +ℤ end.now.subj) }
    requires clip { Within (2 ^ 33) (sum.clip +ℤ end.now.clip) }
    ensures subj { result.subj ≡ sum.subj +ℤ end.now.subj }
    ensures clip { result.clip ≡ sum.clip +ℤ end.now.clip }
{
    Windings {
        subj: sum.subj + end.subj,
        clip: sum.clip + end.clip,
    }
}
