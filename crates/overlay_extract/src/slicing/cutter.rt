//! Closed walks cut into loops, at the points that they visit more than once.

ghost use Rattle.std.specs.Prelude.{◌≡◌, ◌<◌, ◌++◌, [], ◌∷◌, length, take, All, IfOk, OnOk};
ghost use Rattle.overlay_geom.specs.Points.{plain_point};
ghost use Rattle.overlay_extract.specs.ClosedWalks.{HasLength, IsClosedWalk, IsCutIntoLoops};
ghost use Rattle.overlay_extract.specs.ClosedWalks.{IsCutSoFar, IsPlaceLeft, NoneLeaves};
ghost use Rattle.overlay_extract.specs.Repeats.{IsCutAtRepeats, IsCutOnTheWay};
ghost use Rattle.overlay_extract.specs.Visits.{path_before};
ghost use Rattle.overlay_walk.specs.Places.{step_at};
ghost use Rattle.overlay_walk.specs.Steps.{plain_step, plain_steps};
ghost use Rattle.overlay_walk.specs.Walks.{plain_walks};

use crate::slicing::visits::WalkVisits;
use overlay_geom::number::IntNumber;
use overlay_geom::point::IntPoint;
use overlay_walk::step::Step;
use std::alloc::{AllocError, Allocator};

/// Cuts a closed walk into loops that visit no point twice. Where the walk comes back to a point, the steps since it
/// left that point are a loop, with the step from the point last; what is left at the end is the last loop, and begins
/// where the walk does. Two steps there and back make no loop, and are dropped.
pub fn cut_loops<I: IntNumber, A: Allocator + Clone>(
    alloc: A,
    walk: &[Step<I>],
) -> Result<Vec<Vec<Step<I>, A>, A>, AllocError>
    requires closed { IsClosedWalk (plain_steps I.whole walk.now) }
    requires long { All HasLength (plain_steps I.whole walk.now) }
    ensures cut { IfOk result
        (λ ls. IsCutIntoLoops (plain_steps I.whole walk.now) (plain_walks I.whole ls.items)) }
    ensures order { IfOk result
        (λ ls. IsCutAtRepeats (plain_steps I.whole walk.now) (plain_walks I.whole ls.items)) }
{
    let mut visits = WalkVisits::new(alloc.clone()?, walk)?;
    let mut cutter = LoopCutter::new(alloc)?;
    for place in 0..walk.len() {
        let step = walk[place];
        let left = visits.note(&cutter.path, step);
        cutter.visit(step, left)?;
    }
    cutter.into_loops()
}

/// A walk on its way to be cut into loops.
#[derive(Drop)]
struct LoopCutter<I: IntNumber, A: Allocator> {
    // what is walked so far and not cut off: it visits no point twice before the one reached
    path: Vec<Step<I>, A>,
    // the loops cut off so far
    loops: Vec<Vec<Step<I>, A>, A>,
}

impl<I: IntNumber, A: Allocator + Clone> LoopCutter<I, A> {
    // Before the first step.
    fn new(alloc: A) -> Result<Self, AllocError>
        ensures path { IfOk result (λ c. c.path.items ≡ []) }
        ensures loops { IfOk result (λ c. c.loops.items ≡ []) }
    {
        Ok(LoopCutter {
            path: Vec::new(alloc.clone()?),
            loops: Vec::new(alloc),
        })
    }

    // Goes on by a step from the point reached, which the path may have left before, at this place.
    fn visit(&mut self, step: Step<I>, left: Option<usize>) -> Result<(), AllocError>
        requires long { HasLength (plain_step I.whole step) }
        requires left { IsPlaceLeft (plain_steps I.whole self.old.path.items) (plain_step I.whole step).from left }
        ensures path { OnOk result (self.new.path.items ≡ path_before left self.old.path.items ++ step ∷ []) }
        ensures on { OnOk result ((start : _) (walked : _) →
            IsCutSoFar start (plain_step I.whole step).from walked (plain_steps I.whole self.old.path.items)
            (plain_walks I.whole self.old.loops.items) →
            IsCutSoFar start (plain_step I.whole step).to (walked ++ plain_step I.whole step ∷ [])
            (plain_steps I.whole self.new.path.items) (plain_walks I.whole self.new.loops.items)) }
        ensures order { OnOk result ((walk rest : _) →
            IsCutOnTheWay walk (plain_steps I.whole self.old.path.items) (plain_step I.whole step ∷ rest)
            (plain_walks I.whole self.old.loops.items) →
            IsCutOnTheWay walk (plain_steps I.whole self.new.path.items) rest
            (plain_walks I.whole self.new.loops.items)) }
    {
        self.cut_at(step.from, left)?;
        self.path.push(step)?;
        Ok(())
    }

    // Cuts off what is walked since the path left the point reached, if it did.
    fn cut_at(&mut self, point: IntPoint<I>, left: Option<usize>) -> Result<(), AllocError>
        requires { IsPlaceLeft (plain_steps I.whole self.old.path.items) (plain_point I.whole point) left }
        ensures path { OnOk result (self.new.path.items ≡ path_before left self.old.path.items) }
        ensures cut { OnOk result ((start : _) (walked : _) →
            IsCutSoFar start (plain_point I.whole point) walked (plain_steps I.whole self.old.path.items)
            (plain_walks I.whole self.old.loops.items) →
            IsCutSoFar start (plain_point I.whole point) walked (plain_steps I.whole self.new.path.items)
            (plain_walks I.whole self.new.loops.items)
            × NoneLeaves (plain_point I.whole point) (plain_steps I.whole self.new.path.items)) }
        ensures order { OnOk result ((walk t rest : _) → t.from ≡ plain_point I.whole point →
            IsCutOnTheWay walk (plain_steps I.whole self.old.path.items) (t ∷ rest)
            (plain_walks I.whole self.old.loops.items) →
            IsCutOnTheWay walk (plain_steps I.whole self.new.path.items) (t ∷ rest)
            (plain_walks I.whole self.new.loops.items)
            × NoneLeaves (plain_point I.whole point) (plain_steps I.whole self.new.path.items)) }
    {
        let Some(place) = left else {
            return Ok(());
        };
        self.cut_from(place)?;
        Ok(())
    }

    // Cuts off the path from a place on, which leads back to the point that the step there leaves.
    fn cut_from(&mut self, place: usize) -> Result<(), AllocError>
        requires { place < length self.old.path.items }
        ensures path { OnOk result (self.new.path.items ≡ take place self.old.path.items) }
        ensures cut { OnOk result ((start : _) (walked : _) →
            IsCutSoFar start (step_at (plain_steps I.whole self.old.path.items) place).from walked
            (plain_steps I.whole self.old.path.items) (plain_walks I.whole self.old.loops.items) →
            IsCutSoFar start (step_at (plain_steps I.whole self.old.path.items) place).from walked
            (plain_steps I.whole self.new.path.items) (plain_walks I.whole self.new.loops.items)) }
        ensures order { OnOk result ((walk t rest : _) →
            t.from ≡ (step_at (plain_steps I.whole self.old.path.items) place).from →
            IsCutOnTheWay walk (plain_steps I.whole self.old.path.items) (t ∷ rest)
            (plain_walks I.whole self.old.loops.items) →
            IsCutOnTheWay walk (plain_steps I.whole self.new.path.items) (t ∷ rest)
            (plain_walks I.whole self.new.loops.items)) }
    {
        let mut tail = self.path.split_off(place)?;
        if tail.len() < 3 {
            return Ok(());
        }
        tail.rotate_left(1);
        self.loops.push(tail)?;
        Ok(())
    }

    // The loops at the end of the walk: those cut off, and last what is left.
    fn into_loops(self) -> Result<Vec<Vec<Step<I>, A>, A>, AllocError>
        ensures cut { IfOk result (λ ls. (start : _) (walked : _) →
            IsCutSoFar start start walked (plain_steps I.whole self.path.items) (plain_walks I.whole self.loops.items) →
            IsCutIntoLoops walked (plain_walks I.whole ls.items)) }
        ensures order { IfOk result (λ ls. (walk : _) →
            IsCutOnTheWay walk (plain_steps I.whole self.path.items) [] (plain_walks I.whole self.loops.items) →
            IsCutAtRepeats walk (plain_walks I.whole ls.items)) }
    {
        let LoopCutter { path, mut loops } = self;
        if path.len() < 3 {
            return Ok(loops);
        }
        loops.push(path)?;
        Ok(loops)
    }
}
