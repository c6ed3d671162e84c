//! The filled-above edges of walks.

ghost use Rattle.std.specs.Prelude.{◌≡◌, ◌++◌, false, All, AllPairs, IfOk, OnOk};
ghost use Rattle.std.specs.Prelude.{map};
ghost use Rattle.overlay_geom.specs.Plane.{edge_eq};
ghost use Rattle.overlay_plane.specs.Binding.{all_filled_above};
ghost use Rattle.overlay_walk.specs.GroupedContours.{walk_of};
ghost use Rattle.overlay_walk.specs.Steps.{plain_steps, filled_hand, IsLong};
ghost use Rattle.overlay_walk.specs.WalkEdges.{numbered_entries};
ghost use Rattle.overlay_extract.specs.WalkEntries.{filled_entries};
ghost use Rattle.overlay_extract.specs.WalkEntries.{IsFilledEntry, AreFilledEntries};

use crate::binding::by_start::sort_by_start;
use overlay_geom::number::IntNumber;
use overlay_geom::options::ContourDirection;
use overlay_walk::contour::Contour;
use overlay_walk::filled_side::{edge_along, is_filled_above};
use overlay_walk::numbered_edge::NumberedEdge;
use overlay_walk::step::Step;
use std::alloc::{AllocError, Allocator};

/// Returns the filled-above edges of all walks, in the order of their smaller ends, each with the index of its walk.
pub fn filled_above_edges<I: IntNumber, A: Allocator>(
    alloc: A,
    contours: &[Contour<I, A>],
    direction: ContourDirection,
) -> Result<Vec<NumberedEdge<I>, A>, AllocError>
    requires long { All (All (IsLong I.limit)) (map (walk_of I.whole) contours.now) }
    requires distinct { AllPairs (λ e f. edge_eq e f ≡ false)
        (all_filled_above (filled_hand direction) (map (walk_of I.whole) contours.now)) }
    ensures ok { IfOk result (λ v. AreFilledEntries (filled_hand direction) (map (walk_of I.whole) contours.now)
        (numbered_entries I.whole v.items)) }
{
    let mut edges = edges_walk_by_walk(alloc, contours, direction)?;
    sort_by_start(&mut edges)?;
    Ok(edges)
}

/// Returns the filled-above edges of all walks, walk by walk.
fn edges_walk_by_walk<I: IntNumber, A: Allocator>(
    alloc: A,
    contours: &[Contour<I, A>],
    direction: ContourDirection,
) -> Result<Vec<NumberedEdge<I>, A>, AllocError>
    requires long { All (All (IsLong I.limit)) (map (walk_of I.whole) contours.now) }
    ensures edges { IfOk result (λ v. map (λ f. f.edge) (numbered_entries I.whole v.items)
        ≡ all_filled_above (filled_hand direction) (map (walk_of I.whole) contours.now)) }
    ensures from { IfOk result (λ v. All (IsFilledEntry (filled_hand direction) (map (walk_of I.whole) contours.now))
        (numbered_entries I.whole v.items)) }
{
    let mut edges = Vec::new(alloc);
    for i in 0..contours.len() {
        push_filled(&mut edges, &contours[i].steps, i, direction)?;
    }
    Ok(edges)
}

/// Adds the filled-above edges of a walk, each with the walk's index.
fn push_filled<I: IntNumber, A: Allocator>(
    edges: &mut Vec<NumberedEdge<I>, A>,
    walk: &[Step<I>],
    index: usize,
    direction: ContourDirection,
) -> Result<(), AllocError>
    requires { All (IsLong I.limit) (plain_steps I.whole walk.now) }
    ensures ok { OnOk result (numbered_entries I.whole edges.new.items
        ≡ numbered_entries I.whole edges.old.items ++ filled_entries (filled_hand direction) index
        (plain_steps I.whole walk.now)) }
{
    for step in walk {
        if is_filled_above(step, direction) {
            edges.push(edge_along(step, index))?;
        }
    }
    Ok(())
}
