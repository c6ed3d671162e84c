//! The order of tours, and which way they are walked.

ghost use Rattle.std.specs.Prelude.{◌≡◌, ◌<◌, ◌∷◌, length};
ghost use Rattle.std.specs.Ordering.{is_lt, is_eq};
ghost use Rattle.overlay_geom.specs.Plane.{edge_eq, edge_lt};
ghost use Rattle.overlay_geom.specs.Points.{plain_point};
ghost use Rattle.overlay_extract.specs.TourOrder.{found_edge, is_tour_before, is_walked_along, edge_between};
ghost use Rattle.overlay_walk.specs.Steps.{plain_steps};

use overlay_geom::edge::compare_points;
use overlay_geom::number::IntNumber;
use overlay_geom::point::IntPoint;
use overlay_walk::step::Step;
use std::cmp::Ordering;

/// Returns whether the tour is walked along: it leaves its start along the edge by which it is found, the first
/// one in order of the two at its start. Else it comes back along it, and is walked back.
pub(crate) fn is_walked_along<I: IntNumber>(tour: &[Step<I>]) -> bool
    ensures { result ≡ is_walked_along (plain_steps I.whole tour.now) }
{
    if tour.is_empty() {
        return true;
    }
    let first = tour[0];
    let last = tour[tour.len() - 1];
    compare_points(first.to, last.from).is_le()
}

/// Returns how two tours compare: by their starts, then by the other ends of the edges by which they are found; of
/// two tours at one edge the one that is walked along is less. Where one has no steps, the one with fewer steps is
/// less.
pub(crate) fn compare_tours<I: IntNumber>(s: &[Step<I>], t: &[Step<I>]) -> Ordering
    ensures { is_lt result ≡ is_tour_before (plain_steps I.whole s.now) (plain_steps I.whole t.now) }
{
    if s.is_empty() || t.is_empty() {
        return s.len().cmp(&t.len());
    }
    match compare_ends(found_at(s), found_at(t)) {
        Ordering::Equal => is_walked_along(t).cmp(&is_walked_along(s)),
        by_edge => by_edge,
    }
}

// The ends of the edge by which a tour is found, its start first.
fn found_at<I: IntNumber>(tour: &[Step<I>]) -> (IntPoint<I>, IntPoint<I>)
    requires { 0 < length tour.now }
    ensures { (s ss : _) → plain_steps I.whole tour.now ≡ s ∷ ss →
        edge_between (plain_point I.whole result.0) (plain_point I.whole result.1) ≡ found_edge s ss }
{
    let first = tour[0];
    let last = tour[tour.len() - 1];
    if is_walked_along(tour) {
        (first.from, first.to)
    } else {
        (first.from, last.from)
    }
}

// How two edges compare by their ends, the first ones first.
fn compare_ends<I: IntNumber>(
    e: (IntPoint<I>, IntPoint<I>),
    f: (IntPoint<I>, IntPoint<I>),
) -> Ordering
    ensures less { is_lt result ≡ edge_lt (edge_between (plain_point I.whole e.0) (plain_point I.whole e.1))
        (edge_between (plain_point I.whole f.0) (plain_point I.whole f.1)) }
    ensures tied { is_eq result ≡ edge_eq (edge_between (plain_point I.whole e.0) (plain_point I.whole e.1))
        (edge_between (plain_point I.whole f.0) (plain_point I.whole f.1)) }
{
    match compare_points(e.0, f.0) {
        Ordering::Equal => compare_points(e.1, f.1),
        by_start => by_start,
    }
}
