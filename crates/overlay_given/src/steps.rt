//! How the windings beside an edge change where other edges meet it.

ghost use Rattle.std.specs.Prelude.{◌≡◌, ◌*ℤ◌, ◌*◌, ◌^◌, ◌<◌, length, All};
ghost use Rattle.overlay_geom.specs.Edges.{ends_of};
ghost use Rattle.overlay_geom.specs.Numbers.{Within};
ghost use Rattle.overlay_geom.specs.Resolved.{plain_edge as plain_ends, IsLongEdge};
ghost use Rattle.overlay_order.specs.Content.{plain_edge, plain_edges, IsHeld};
ghost use Rattle.overlay_exact.specs.Along.{plain_mets};
ghost use Rattle.overlay_given.specs.Beside.{IsNear};
ghost use Rattle.overlay_given.specs.Steps.{below_by, above_by, Rises};
ghost use Rattle.overlay_given.specs.declared.steps.Stop.TheVariants.{First, Later};

use crate::beside::Beside;
use overlay_exact::met::MetAlong;
use overlay_geom::edge::IntEdge;
use overlay_geom::edge_pair::is_same;
use overlay_geom::number::{IntNumber, WideIntNumber};
use overlay_geom::vector::cross_at;
use overlay_order::count::EdgeCount;
use overlay_order::edge::CountedEdge;

/// A place of an edge where other edges meet it.
#[derive(Debug, Clone, Copy, PartialEq, Eq)]
pub(crate) enum Stop {
    /// Its start. To the winding there come the counts of the edges that lead on to its right, and along it.
    First,
    /// A later place. To the windings before it come the counts of the edges that lead across there, or end there.
    Later,
}

/// How many times the counts of an edge are added to the windings below and above another edge.
#[derive(Debug, Clone, Copy)]
pub(crate) struct Steps {
    /// To the winding below.
    pub(crate) below: i32,
    /// To the winding above.
    pub(crate) above: i32,
}

impl Stop {
    /// Returns how many times the counts of f are added to the windings beside e, which it meets.
    pub(crate) fn steps<I: IntNumber>(self, e: IntEdge<I>, f: IntEdge<I>) -> Steps
        requires one { IsLongEdge I.limit (plain_ends I.whole e) }
        requires other { IsLongEdge I.limit (plain_ends I.whole f) }
        ensures below { result.below ≡ below_by self (plain_ends I.whole e) (plain_ends I.whole f) }
        ensures above { result.above ≡ above_by self (plain_ends I.whole e) (plain_ends I.whole f) }
    {
        match self {
            Stop::First => first_steps(e, f),
            Stop::Later => later_steps(e, f),
        }
    }
}

// The steps of an edge f through the start of e: 1 where it ends on the right of e's line, and above also where it
// leads on along the line.
fn first_steps<I: IntNumber>(e: IntEdge<I>, f: IntEdge<I>) -> Steps
    requires one { IsLongEdge I.limit (plain_ends I.whole e) }
    requires other { IsLongEdge I.limit (plain_ends I.whole f) }
    ensures below { result.below ≡ below_by First (plain_ends I.whole e) (plain_ends I.whole f) }
    ensures above { result.above ≡ above_by First (plain_ends I.whole e) (plain_ends I.whole f) }
{
    let to = cross_at(e.a, e.b, f.b).sign();
    let leads_on = to.is_eq() && !is_same(f.b, e.a);
    Steps {
        below: i32::from(to.is_lt()),
        above: i32::from(to.is_lt()) + i32::from(leads_on),
    }
}

// The steps of an edge f that e passes: below, whether it ends on the right of e's line less whether it starts there;
// above, whether it starts on the left less whether it ends there.
fn later_steps<I: IntNumber>(e: IntEdge<I>, f: IntEdge<I>) -> Steps
    requires one { IsLongEdge I.limit (plain_ends I.whole e) }
    requires other { IsLongEdge I.limit (plain_ends I.whole f) }
    ensures below { result.below ≡ below_by Later (plain_ends I.whole e) (plain_ends I.whole f) }
    ensures above { result.above ≡ above_by Later (plain_ends I.whole e) (plain_ends I.whole f) }
{
    let from = cross_at(e.a, e.b, f.a).sign();
    let to = cross_at(e.a, e.b, f.b).sign();
    Steps {
        below: i32::from(to.is_lt()) - i32::from(from.is_lt()),
        above: i32::from(from.is_gt()) - i32::from(to.is_gt()),
    }
}

/// Sums up what the edges met add to the windings beside the edge.
pub(crate) fn sum_met<I: IntNumber, C: EdgeCount>(
    at: Stop,
    edges: &[CountedEdge<I, C>],
    edge: &CountedEdge<I, C>,
    met: &[MetAlong<I::Wide>],
) -> Beside
    requires held { All (IsHeld I.limit) (plain_edges I.whole C.counts edges.now) }
    requires edge { IsHeld I.limit (plain_edge I.whole C.counts edge.now) }
    requires others { All (λ m. m.other < length edges.now) (plain_mets I.Wide.whole met.now) }
    ensures sums { Rises at (plain_edges I.whole C.counts edges.now) (plain_edge I.whole C.counts edge.now)
        (plain_mets I.Wide.whole met.now) result }
    ensures near { IsNear (length met.now * 2 ^ 32) result }
    ensures small { IsNear (2 ^ 97) result }
{
    let e = ends_of(edge);
    let mut sum = Beside::none();
    for m in met {
        let f = &edges[m.other];
        sum = sum.plus(counted(f, at.steps(e, ends_of(f))));
    }
    sum
}

/// Returns the counts of the edge, taken as often as the steps tell.
pub(crate) fn counted<I: IntNumber, C: EdgeCount>(f: &CountedEdge<I, C>, steps: Steps) -> Beside
    requires below { Within 2 steps.below }
    requires above { Within 2 steps.above }
    ensures subj_below { result.subj_below ≡ (C.counts f.now.count).subj *ℤ steps.below }
    ensures subj_above { result.subj_above ≡ (C.counts f.now.count).subj *ℤ steps.above }
    ensures clip_below { result.clip_below ≡ (C.counts f.now.count).clip *ℤ steps.below }
    ensures clip_above { result.clip_above ≡ (C.counts f.now.count).clip *ℤ steps.above }
    ensures near { IsNear (2 ^ 32) result }
{
    Beside {
        subj_below: times(f.count.subj(), steps.below),
        subj_above: times(f.count.subj(), steps.above),
        clip_below: times(f.count.clip(), steps.below),
        clip_above: times(f.count.clip(), steps.above),
    }
}

// Returns the product of the count and the number of steps.
fn times(count: i32, steps: i32) -> i128
    requires { Within 2 steps }
    ensures value { result ≡ count *ℤ steps }
    ensures near { Within (2 ^ 32) result }
{
    i128::from(count) * i128::from(steps)
}

/// Returns the two ends of an edge, without its counts.
pub(crate) fn ends_of<I: IntNumber, C: EdgeCount>(e: &CountedEdge<I, C>) -> IntEdge<I>
    ensures { plain_ends I.whole result ≡ ends_of (plain_edge I.whole C.counts e.now) }
{
    IntEdge { a: e.a, b: e.b }
}
