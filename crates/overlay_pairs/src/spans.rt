//! Runs of edges: the edges that start up to the right end of an edge, and their number.

ghost use Rattle.std.specs.Prelude.{◌<◌, ◌≤◌, ◌<ℤ◌, All, length};
ghost use Rattle.overlay_order.specs.Content.{plain_edges, IsAscending, IsHeld};
ghost use Rattle.overlay_pairs.specs.Places.{IsAt, IsRunEnd};

use overlay_geom::number::IntNumber;
use overlay_order::count::EdgeCount;
use overlay_order::edge::CountedEdge;

// Length of the first step of the search for the end of a run.
const FIRST_STEP: usize = 16;

/// Returns the place of the first edge from `from` on that starts right of x, or the number of edges. The edges ascend.
pub(crate) fn run_end<I: IntNumber, C: EdgeCount>(
    edges: &[CountedEdge<I, C>],
    x: I,
    from: usize,
) -> usize
    requires held { All (IsHeld I.limit) (plain_edges I.whole C.counts edges.now) }
    requires ascending { IsAscending (plain_edges I.whole C.counts edges.now) }
    requires within { from ≤ length edges.now }
    ensures { IsRunEnd (plain_edges I.whole C.counts edges.now) (I.whole x) from result }
{
    let to = place_right_of(edges, from, x);
    from + edges[from..to].partition_point(|f| !x.compare(f.a.x).is_lt())
}

/// Returns a place from `from` on where an edge starts right of x, or the number of edges. Each step is twice as long
/// as the step before, so the place is not far behind the first such place.
pub(crate) fn place_right_of<I: IntNumber, C: EdgeCount>(
    edges: &[CountedEdge<I, C>],
    from: usize,
    x: I,
) -> usize
    requires { from ≤ length edges.now }
    ensures ordered { from ≤ result }
    ensures within { result ≤ length edges.now }
    ensures right { (f : _) → IsAt (plain_edges I.whole C.counts edges.now) result f
        → I.whole x <ℤ f.a.x }
{
    let mut at = from;
    let mut step: usize = FIRST_STEP;
    while at < edges.len() {
        if x.compare(edges[at].a.x).is_lt() {
            return at;
        }
        at = at.saturating_add(step);
        step = step.saturating_add(step);
    }
    edges.len()
}

/// Returns the total length of the runs of `samples` edges at equal distances. It only serves as an estimate. The edges
/// ascend.
pub(crate) fn length_of_runs<I: IntNumber, C: EdgeCount>(
    edges: &[CountedEdge<I, C>],
    samples: usize,
) -> usize
    requires held { All (IsHeld I.limit) (plain_edges I.whole C.counts edges.now) }
    requires ascending { IsAscending (plain_edges I.whole C.counts edges.now) }
    requires some { 0 < samples }
{
    let distance = (edges.len() / samples).saturating_add(1);
    let mut length: usize = 0;
    for k in 0..samples {
        let i = k.saturating_mul(distance);
        if i < edges.len() {
            length = length.saturating_add(run_end(edges, edges[i].b.x, i + 1) - i);
        }
    }
    length
}
