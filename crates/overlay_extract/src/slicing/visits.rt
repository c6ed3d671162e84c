//! The places on a path at which the points of a walk are left.

ghost use Rattle.std.specs.Prelude.{◌≡◌, ◌<◌, ◌++◌, [], ◌∷◌, true, false, length, All, IfOk, Some};
ghost use Rattle.overlay_geom.specs.Plane.{point_eq};
ghost use Rattle.overlay_geom.specs.Points.{plain_point};
ghost use Rattle.overlay_extract.specs.ClosedWalks.{IsPlaceLeft};
ghost use Rattle.overlay_extract.specs.Visits.{AreNoted, IsLeft, path_before};
ghost use Rattle.overlay_walk.specs.Places.{step_at};
ghost use Rattle.overlay_walk.specs.Steps.{plain_step, plain_steps};

use overlay_geom::edge_pair::is_same;
use overlay_geom::number::IntNumber;
use overlay_geom::point::IntPoint;
use overlay_walk::next::count_leaving_below;
use overlay_walk::open_steps::sort_steps;
use overlay_walk::step::Step;
use std::alloc::{AllocError, Allocator};

/// The points that a walk leaves, each with the place at which a path left it last. The path is what is walked so far
/// and not cut off.
#[derive(Drop)]
pub(crate) struct WalkVisits<I: IntNumber, A: Allocator> {
    // the steps of the walk, in the order of the points that they leave
    steps: Vec<Step<I>, A>,
    // for the first of the steps that leave a point, its place on the path
    places: Vec<usize, A>,
}

impl<I: IntNumber, A: Allocator + Clone> WalkVisits<I, A> {
    /// The points of a walk, before its first step.
    pub(crate) fn new(alloc: A, walk: &[Step<I>]) -> Result<Self, AllocError>
        ensures noted { IfOk result (λ v. AreNoted I.whole v.steps.items v.places.items []) }
        ensures left { IfOk result (λ v.
            All (λ s. IsLeft I.whole v.steps.items s.from) (plain_steps I.whole walk.now)) }
    {
        let mut steps = Vec::from_slice(alloc.clone()?, walk)?;
        sort_steps(&mut steps)?;
        let mut places = Vec::new(alloc);
        places.resize(steps.len(), 0)?;
        Ok(WalkVisits { steps, places })
    }

    /// Returns the place of the step of the path that leaves the same point as a step, if there is one. Notes that the
    /// path goes on from there, or else from its end, by the step.
    pub(crate) fn note(&mut self, path: &[Step<I>], step: Step<I>) -> Option<usize>
        requires noted { AreNoted I.whole self.old.steps.items self.old.places.items (plain_steps I.whole path.now) }
        requires left { IsLeft I.whole self.old.steps.items (plain_step I.whole step).from }
        ensures place { IsPlaceLeft (plain_steps I.whole path.now) (plain_step I.whole step).from result }
        ensures noted { AreNoted I.whole self.old.steps.items self.new.places.items
            (plain_steps I.whole (path_before result path.now ++ step ∷ [])) }
        ensures steps { self.new.steps.items ≡ self.old.steps.items }
    {
        let number = count_leaving_below(&self.steps, usize::MAX, step.from);
        let place = self.places[number];
        if leaves_at(path, place, step.from) {
            return Some(place);
        }
        self.places[number] = path.len();
        None
    }
}

// Returns whether a step of the path stands at the place and leaves the point.
fn leaves_at<I: IntNumber>(path: &[Step<I>], place: usize, point: IntPoint<I>) -> bool
    ensures leaves { result ≡ true →
        IsPlaceLeft (plain_steps I.whole path.now) (plain_point I.whole point) (Some place) }
    ensures differs { result ≡ false → place < length path.now →
        point_eq (step_at (plain_steps I.whole path.now) place).from (plain_point I.whole point) ≡ false }
{
    if place >= path.len() {
        return false;
    }
    is_same(path[place].from, point)
}
