//! Steps to be walked, with marks of those that walks have taken.

ghost use Rattle.std.specs.Prelude.{◌≡◌, ◌↔◌, [], ◌∷◌, None, All, Any, Contains, IfOk, IfSome, OnOk};
ghost use Rattle.std.specs.List.Sorted.{IsPermutation};
ghost use Rattle.overlay_geom.specs.Plane.{step_eq};
ghost use Rattle.overlay_plane.specs.BesideOrbits.{HasEachOnce};
ghost use Rattle.overlay_plane.specs.Contours.{IsStart, without};
ghost use Rattle.overlay_plane.specs.NextSteps.{LeadsOn};
ghost use Rattle.overlay_plane.specs.Turn.{IsNextStep, IsOrbit, step_round};
ghost use Rattle.overlay_walk.specs.Steps.{plain_hand, plain_step, plain_steps};
ghost use Rattle.overlay_walk.specs.Steps.{IsByFrom, IsLong};

use crate::fans::{FansByHand, fans_of, place_by_hand};
use crate::hand::Hand;
use crate::leftmost::{first_open, places_top_first};
use crate::onward::{noted, onward_places};
use crate::step::Step;
use overlay_geom::edge_pair::is_same;
use overlay_geom::flat::copied;
use overlay_geom::number::IntNumber;
use overlay_order::edge::compare_points;
use overlay_order::sort_points::{is_in_order, order_by_points};
use overlay_order::sort_runs::sort_neighbours;
use std::alloc::{AllocError, Allocator};
use std::marker::Model;

/// Steps between different points in range, with marks of those that are left.
#[derive(Drop)]
pub struct OpenSteps<I: IntNumber, A: Allocator> {
    // in the order of the points that they leave
    steps: Vec<Step<I>, A>,
    // marks of the steps that a walk has taken
    taken: Vec<bool, A>,
    // the places of the steps, by the starts of their edges
    places: Vec<usize, A>,
    // the number of these places, from the front, that are known to be taken
    passed: usize,
    // for each step a note of the place where the steps that leave its end are looked for first
    onward: Vec<u32, A>,
    // that place for the step to be walked on from
    near: usize,
    // the fans of the steps, where many leave one point
    fans: FansByHand<A>,
}

impl<I: IntNumber, A: Allocator> Model for OpenSteps<I, A> {
    ghost use Rattle.std.specs.Prelude.{List};
    ghost use Rattle.overlay_walk.specs.declared.step.Step.{Step};
    ghost use Rattle.overlay_walk.specs.Kept.{AreKept};
    ghost use Rattle.overlay_walk.specs.Steps.{unmarked};

    ghost Value = { List (Step I) };

    ghost view = { λ o. unmarked o.steps.items o.taken.items };

    ghost invariant = { λ o. AreKept I.whole I.limit o.steps.items o.taken.items o.places.items o.passed
        o.fans };
}

impl<I: IntNumber, A: Allocator> OpenSteps<I, A> {
    /// Returns the memory of the steps, to be used again, as a list without steps.
    pub fn into_room(self) -> Vec<Step<I>, A>
        ensures { result.items ≡ [] }
    {
        let mut room = self.steps;
        room.clear();
        room
    }

    /// Returns the step along the top edge at the leftmost lowest point of the steps left, or None if none is left.
    pub fn start(&mut self) -> Option<Step<I>>
        ensures none { (result ≡ None) ↔ (self.old ≡ []) }
        ensures some { IfSome result (λ s. Contains self.old s) }
        ensures start { IfSome result (λ s. IsStart (plain_steps I.whole self.old) (plain_step I.whole s)) }
        ensures left { self.new ≡ self.old }
    {
        self.passed = first_open(&self.places, &self.taken, self.passed);
        if self.passed == self.places.len() {
            return None;
        }
        let place = self.places[self.passed];
        self.near = noted(&self.onward, place);
        Some(self.steps[place])
    }

    // Takes the next step by a hand after a step; one of the steps left leaves its end.
    fn take_next(&mut self, step: Step<I>, hand: Hand) -> Step<I>
        requires once { HasEachOnce (plain_steps I.whole self.old) }
        requires long { IsLong I.limit (plain_step I.whole step) }
        requires goes_on { Any (λ t. t.from ≡ (plain_step I.whole step).to) (plain_steps I.whole self.old) }
        ensures among { Contains self.old result }
        ensures next { IsNextStep (plain_steps I.whole self.old) (plain_hand hand) (plain_step I.whole step)
            (plain_step I.whole result) }
        ensures left { plain_steps I.whole self.new
            ≡ without (plain_steps I.whole self.old) (plain_step I.whole result ∷ []) }
        ensures fewer { All (Contains self.old) self.new }
    {
        let near = self.near;
        match place_by_hand(&self.steps, &self.taken, &mut self.fans, near, step, hand) {
            Some(place) => {
                self.taken[place] = true;
                self.near = noted(&self.onward, place);
                self.steps[place]
            }
            None => unreachable!(),
        }
    }
}

impl<I: IntNumber, A: Allocator + Clone> OpenSteps<I, A> {
    /// Makes a list of all the steps, none of them taken.
    pub fn new(mut steps: Vec<Step<I>, A>) -> Result<Self, AllocError>
        requires { All (IsLong I.limit) (plain_steps I.whole steps.items) }
        ensures all { IfOk result (λ o. IsPermutation steps.items o) }
    {
        sort_steps(&mut steps)?;
        let places = places_top_first(steps.allocator().clone()?, &steps)?;
        let onward = onward_places(steps.allocator().clone()?, &steps, &places)?;
        let fans = fans_of(steps.allocator().clone()?, &steps)?;
        let mut taken = Vec::new(steps.allocator().clone()?);
        taken.resize(steps.len(), false)?;
        Ok(OpenSteps {
            steps,
            taken,
            places,
            passed: 0,
            onward,
            near: 0,
            fans,
        })
    }

    /// Takes the orbit of a step by a hand, in the steps left. A ray that turns by the hand at the end of a step, from
    /// the way back, meets the next step first. The steps left lead on by the hand: a step leaves the end of each, and
    /// no two have the same next step. The steps are gathered in the room that is lent, whose content is lost. After a
    /// refusal, the steps left are open.
    pub fn walk(
        &mut self,
        room: &mut Vec<Step<I>, A>,
        start: Step<I>,
        hand: Hand,
    ) -> Result<Vec<Step<I>, A>, AllocError>
        requires leads_on { LeadsOn (plain_steps I.whole self.old) (plain_hand hand) }
        requires once { HasEachOnce (plain_steps I.whole self.old) }
        requires left { Contains self.old start }
        ensures orbit { IfOk result (λ w. IsOrbit (plain_steps I.whole self.old) (plain_hand hand)
            (plain_steps I.whole w.items)) }
        ensures begins { IfOk result (λ w. step_round (plain_steps I.whole w.items) 0 ≡ plain_step I.whole start) }
        ensures among { IfOk result (λ w. All (Contains self.old) w.items) }
        ensures left { IfOk result (λ w.
            plain_steps I.whole self.new ≡ without (plain_steps I.whole self.old) (plain_steps I.whole w.items)) }
        ensures fewer { OnOk result (All (Contains self.old) self.new) }
    {
        let alloc = self.steps.allocator().clone()?;
        room.clear();
        let mut step = start;
        loop {
            room.push(step)?;
            step = self.take_next(step, hand);
            if is_same_step(step, start) {
                let walk = copied(alloc, room)?;
                return Ok(walk);
            }
        }
    }
}

/// Sorts the steps by the points that they leave.
pub fn sort_steps<I: IntNumber, A: Allocator + Clone>(
    steps: &mut Vec<Step<I>, A>,
) -> Result<(), AllocError>
    ensures permutation { IsPermutation steps.old.items steps.new.items }
    ensures order { OnOk result (IsByFrom (plain_steps I.whole steps.new.items)) }
{
    order_by_points(steps, |s| s.from)?;
    if is_in_order(steps, &|s: &Step<I>| s.from) {
        return Ok(());
    }
    if sort_neighbours(steps, |s, t| compare_points(s.from, t.from)) {
        return Ok(());
    }
    steps.sort_by(|s, t| compare_points(s.from, t.from))?;
    Ok(())
}

/// Returns whether two steps lead between equal points.
fn is_same_step<I: IntNumber>(s: Step<I>, t: Step<I>) -> bool
    ensures { result ≡ step_eq (plain_step I.whole s) (plain_step I.whole t) }
{
    is_same(s.from, t.from) && is_same(s.to, t.to)
}
