//! A single step as a counted edge, with the data it carries.

ghost use Rattle.std.specs.Prelude.{◌≡◌, ◌^◌, ◌<◌, ◌⊎◌, IfErr, OnOk, OnErr, IsErrOf};
ghost use Rattle.overlay_geom.specs.Counts.{weight_of_counts};
ghost use Rattle.overlay_geom.specs.Points.{plain_point, InRange};
ghost use Rattle.overlay_plane.specs.Carried.{edges_in};
ghost use Rattle.overlay_order.specs.Content.{IsContent};
ghost use Rattle.overlay_builder.specs.AddedSteps.{AddsStep, LeavesStore, StepWeighsTooMuch};

use overlay_arrange::content::Content;
use overlay_geom::error::OverlayError;
use overlay_geom::number::IntNumber;
use overlay_geom::point::IntPoint;
use overlay_order::count::EdgeCount;
use overlay_order::edge::{CountedEdge, compare_points};
use std::alloc::Allocator;
use std::cmp::Ordering;

/// Adds the edge of the step between two points, if they differ. It carries `given`. Where the step runs back, it
/// carries the reverse of `given`; otherwise the store stays. A refusal leaves the content and the store as they were.
pub(crate) fn push_step<I: IntNumber, C: EdgeCount, A: Allocator>(
    content: &mut Content<I, C, A>,
    from: IntPoint<I>,
    to: IntPoint<I>,
    given: C,
    store: &mut C::Store,
) -> Result<(), OverlayError>
    requires light { weight_of_counts (C.counts given) < 2 ^ 31 }
    requires from { InRange I.limit (plain_point I.whole from) }
    requires to { InRange I.limit (plain_point I.whole to) }
    ensures ok { OnOk result (AddsStep C.counts C.reverses given (plain_point I.whole from)
        (plain_point I.whole to) content.old content.new) }
    ensures store { OnOk result (LeavesStore C.writes (plain_point I.whole from) (plain_point I.whole to)
        store.old store.new) }
    ensures err { OnErr result (content.new ≡ content.old) }
    ensures untouched { OnErr result (store.new ≡ store.old) }
    ensures limits { IsContent I.limit (edges_in content.old) → IsContent I.limit (edges_in content.new) }
    ensures too_many { IsErrOf result OverlayError.TooManyEdges → StepWeighsTooMuch C.counts given
        (plain_point I.whole from) (plain_point I.whole to) content.old }
    ensures only { IfErr result (λ e. (e ≡ OverlayError.Memory) ⊎ (e ≡ OverlayError.TooManyEdges)) }
{
    match compare_points(from, to) {
        Ordering::Equal => Ok(()),
        Ordering::Less => content.push(CountedEdge {
            a: from,
            b: to,
            count: given,
        }),
        Ordering::Greater => content.push_reversed(
            CountedEdge {
                a: to,
                b: from,
                count: given,
            },
            store,
        ),
    }
}
