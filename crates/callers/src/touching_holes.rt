//! The shape of two holes that touch its outline, the one by way of the other.

ghost use Rattle.std.specs.Prelude.{◌≡◌, false, All, AllPairs, IfOk};
ghost use Rattle.overlay_geom.specs.Plane.{edge_of, edge_eq};
ghost use Rattle.overlay_geom.specs.Settled.{IsSettledBy};
ghost use Rattle.overlay_plane.specs.Anchors.{HasEachEdgeOnce};
ghost use Rattle.overlay_plane.specs.Binding.{all_filled_above};
ghost use Rattle.overlay_plane.specs.BoundContours.{walks_in};
ghost use Rattle.overlay_plane.specs.Contours.{IsContour, all_steps};
ghost use Rattle.overlay_plane.specs.Turn.{left, right};
ghost use Rattle.overlay_walk.specs.GroupedContours.{plain_contours};
ghost use Rattle.overlay_walk.specs.Steps.{plain_step, IsLong};

use overlay_extract::binding::bind::bind_contours;
use overlay_geom::options::ContourDirection;
use overlay_geom::point::IntPoint;
use overlay_scan::list::ScanList;
use overlay_walk::contour::{Contour, Role};
use overlay_walk::step::Step;
use std::alloc::{AllocError, Global};

// The step from the point (ax, ay) to the point (bx, by).
fn step(ax: i32, ay: i32, bx: i32, by: i32) -> Step<i32>
    ensures { plain_step (λ z. z) result ≡ record { from = record { x = ax; y = ay }; to = record { x = bx; y = by } } }
{
    Step {
        from: IntPoint::new(ax, ay),
        to: IntPoint::new(bx, by),
        edge: 0,
    }
}

// Three outlines, the second of which touches two holes in the point (2, 3). Each step has its filled
// side on the left: the outlines run counterclockwise, the holes clockwise. Each contour begins as a cut
// into contours begins it, with the top edge at its leftmost lowest point. An outline comes to that
// point along this edge, which is filled below; a hole leaves it along one that is filled above.
fn three_outlines_and_two_holes(
    alloc: Global,
) -> Result<Vec<Contour<i32, Global>, Global>, AllocError>
    ensures long { IfOk result
        (λ v. All (All (IsLong 1073741823)) (walks_in (plain_contours (λ z. z) v.items))) }
    ensures contours { IfOk result (λ v. All IsContour (walks_in (plain_contours (λ z. z) v.items))) }
    ensures single { IfOk result (λ v. All HasEachEdgeOnce (walks_in (plain_contours (λ z. z) v.items))) }
    ensures distinct_above { IfOk result (λ v. AllPairs (λ e f. edge_eq e f ≡ false)
        (all_filled_above left (walks_in (plain_contours (λ z. z) v.items)))) }
    ensures distinct_below { IfOk result (λ v. AllPairs (λ e f. edge_eq e f ≡ false)
        (all_filled_above right (walks_in (plain_contours (λ z. z) v.items)))) }
    ensures settled { IfOk result
        (λ v. IsSettledBy edge_of (all_steps (walks_in (plain_contours (λ z. z) v.items)))) }
{
    let beside = [
        step(-3, 4, -3, 2),
        step(-3, 2, -1, 2),
        step(-1, 2, -1, 4),
        step(-1, 4, -3, 4),
    ];
    let round = [
        step(3, 6, 2, 3),
        step(2, 3, 3, 0),
        step(3, 0, 6, 0),
        step(6, 0, 6, 6),
        step(6, 6, 3, 6),
    ];
    let below = [
        step(0, -1, 0, -2),
        step(0, -2, 10, -2),
        step(10, -2, 10, -1),
        step(10, -1, 0, -1),
    ];
    let upper = [step(2, 3, 4, 4), step(4, 4, 4, 3), step(4, 3, 2, 3)];
    let lower = [step(2, 3, 4, 2), step(4, 2, 3, 1), step(3, 1, 2, 3)];
    let contours = vec![in alloc;
        Contour {
            role: Role::Outline(0),
            steps: Vec::from_array(alloc, beside)?
        },
        Contour {
            role: Role::Outline(1),
            steps: Vec::from_array(alloc, round)?
        },
        Contour {
            role: Role::Outline(2),
            steps: Vec::from_array(alloc, below)?
        },
        Contour {
            role: Role::FreeHole,
            steps: Vec::from_array(alloc, upper)?
        },
        Contour {
            role: Role::FreeHole,
            steps: Vec::from_array(alloc, lower)?
        },
    ]?;
    Ok(contours)
}

/// The outlines to which the holes are bound, none for an outline: next below the lower hole is the second outline, and
/// next below the upper hole is the lower one.
pub fn outlines_of_holes(alloc: Global) -> Result<Vec<Option<usize>, Global>, AllocError> {
    let contours = three_outlines_and_two_holes(alloc)?;
    let mut scan: ScanList<i32, usize, _> = ScanList::default(alloc);
    bind_contours(
        alloc,
        &mut scan,
        &contours,
        ContourDirection::CounterClockwise,
    )
}
