//! Where points in an array lie in a prepared shape. No call here takes memory.

ghost use Rattle.std.specs.Prelude.{MatchResult};
ghost use Rattle.polyover_calls.specs.Prepared.{AreLocatedIn, AskingEnds, CanBeAsked, HaveRoom, IsAskingRefused};
ghost use Rattle.polyover_calls.specs.Prepared.{parts_of};
ghost use Rattle.polyover_calls.specs.Reading.{ArePoints};

use crate::locate::number_of;
use crate::prepare::HeldParts;
use crate::status::Status;
use crate::test::{count_points, test_points};
use overlay_geom::edge::IntEdge;
use overlay_geom::integer::OverlayInt;
use overlay_geom::point::IntPoint;
use overlay_relate::blocks::Block;
use overlay_relate::form::FormOf;
use overlay_relate::prepared::parts::locate_in;

/// Where each point lies in the prepared shape with these parts, written as a number for each.
#[tactic(auto, using(crate::proofs::Asking::asked_ends, crate::proofs::Asking::unasked_ends))]
pub fn locate_prepared<I: OverlayInt, E: FormOf<IntEdge<I>>, B: FormOf<Block<I>>>(
    parts: &HeldParts<E, B>,
    points: &[I],
    locations: &mut [u8],
) -> Status
    requires { CanBeAsked I.limit (parts_of I.whole E.meant B.meant parts.now) }
    ensures { AskingEnds I.whole I.limit (parts_of I.whole E.meant B.meant parts.now) points.now locations.old
        locations.new result }
{
    match tested_room(points, locations) {
        Ok(()) => {
            write_locations(parts, points, locations);
            Status::Done
        }
        Err(status) => status,
    }
}

// Tests whether the coordinates are points, and whether there is a place for each.
#[tactic(auto, using(crate::proofs::Asking::points_refused, crate::proofs::Asking::no_room))]
fn tested_room<I: OverlayInt>(points: &[I], locations: &[u8]) -> Result<(), Status>
    ensures { MatchResult result
        (λ _. ArePoints I.whole I.limit points.now × HaveRoom points.now locations.now)
        (IsAskingRefused I.whole I.limit points.now locations.now) }
{
    test_points(points)?;
    if locations.len() < count_points(points) {
        return Err(Status::TooSmall);
    }
    Ok(())
}

// Writes the number of each point's location into the first places.
fn write_locations<I: OverlayInt, E: FormOf<IntEdge<I>>, B: FormOf<Block<I>>>(
    parts: &HeldParts<E, B>,
    points: &[I],
    locations: &mut [u8],
)
    requires asked { CanBeAsked I.limit (parts_of I.whole E.meant B.meant parts.now) }
    requires points { ArePoints I.whole I.limit points.now }
    requires room { HaveRoom points.now locations.old }
    ensures { AreLocatedIn I.whole (parts_of I.whole E.meant B.meant parts.now).edges points.now locations.old
        locations.new }
{
    for at in 0..count_points(points) {
        let place = 2 * at;
        let next = place + 1;
        let x = points[place];
        let y = points[next];
        let location = locate_in(parts.edges, parts.blocks, parts.groups, IntPoint { x, y });
        locations[at] = number_of(location);
    }
}
