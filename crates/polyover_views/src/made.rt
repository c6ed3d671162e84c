//! Graphs that are handed out.

ghost use Rattle.std.specs.Prelude.{◌≡◌, ◌<◌, ◌≤◌, MatchResult, map};
ghost use Rattle.polyover_calls.specs.Given.{contours_of};
ghost use Rattle.polyover_calls.specs.declared.status.Status.TheVariants.{BadOption};
ghost use Rattle.polyover_views.specs.Held.{graph_of, keeps_points, plain_graph};
ghost use Rattle.polyover_views.specs.Made.{IsGraphOf, IsMakingRefused, MakingEnds};

use crate::arranged::arranged_core;
use overlay_geom::integer::OverlayInt;
use overlay_order::data::CountWithData;
use overlay_order::edge::CountedEdge;
use overlay_relate::form::FormOf;
use polyover_calls::given::{Contours, read_both};
use polyover_calls::held::lasting;
use polyover_calls::numbers::{fill_of, solver_of};
use polyover_calls::prepare::formed;
use polyover_calls::status::Status;
use std::alloc::Global;

/// A graph, in the form that C has its edges in.
#[derive(Clone, Copy)]
pub struct HeldGraph<'a, E> {
    pub(crate) edges: &'a [E],
    pub(crate) fill: u32,
    pub(crate) solver: u32,
    pub(crate) keep_given: u32,
}

/// The numbers that a graph is made by.
#[derive(Clone, Copy)]
pub struct GraphNumbers {
    /// The fill rule.
    pub fill: u32,
    /// How edges are split: 0 by snap rounding, 1 in rounds.
    pub solver: u32,
    /// Whether given points on one line are kept, 1 or 0.
    pub keep_given: u32,
}

/// The graph that a call hands out, and how it ends.
#[derive(Clone, Copy)]
pub struct Making<'a, E> {
    pub(crate) graph: HeldGraph<'a, E>,
    pub(crate) status: Status,
}

/// The graph of the contours of both that the numbers ask for, in memory that stays.
#[tactic(auto, using(crate::proofs::Making::made_ends, crate::proofs::Making::unmade_ends))]
pub fn graph_held<'a, I: OverlayInt, E: FormOf<CountedEdge<I, CountWithData<()>>> + 'a>(
    alloc: Global,
    numbers: GraphNumbers,
    subject: &Contours<I>,
    clip: &Contours<I>,
) -> Making<'a, E>
    ensures { MakingEnds I.whole I.limit numbers.fill numbers.solver numbers.keep_given
        (contours_of subject.now.coordinates.now subject.now.ends.now)
        (contours_of clip.now.coordinates.now clip.now.ends.now)
        (graph_of I.whole E.meant result.graph) result.status }
{
    match formed_edges(alloc, numbers, subject, clip) {
        Ok(edges) => {
            let graph = HeldGraph {
                edges: lasting(edges),
                fill: numbers.fill,
                solver: numbers.solver,
                keep_given: numbers.keep_given,
            };
            Making {
                graph,
                status: Status::Done,
            }
        }
        Err(status) => {
            let graph = HeldGraph {
                edges: &[],
                fill: 0,
                solver: 0,
                keep_given: 0,
            };
            Making { graph, status }
        }
    }
}

// The edges of the arrangement in this form, or why there are none.
#[tactic(auto, using(crate::proofs::Making::contours_unread, crate::proofs::Making::memory_refused, crate::proofs::Making::making_refused))]
fn formed_edges<I: OverlayInt, E: FormOf<CountedEdge<I, CountWithData<()>>>>(
    alloc: Global,
    numbers: GraphNumbers,
    subject: &Contours<I>,
    clip: &Contours<I>,
) -> Result<Vec<E, Global>, Status>
    ensures { MatchResult result
        (λ v. IsGraphOf I.whole I.limit numbers.fill numbers.solver numbers.keep_given
        (contours_of subject.now.coordinates.now subject.now.ends.now)
        (contours_of clip.now.coordinates.now clip.now.ends.now)
        (plain_graph I.whole numbers.fill numbers.solver numbers.keep_given (map E.meant v.items)))
        (IsMakingRefused I.whole I.limit numbers.fill numbers.solver numbers.keep_given
        (contours_of subject.now.coordinates.now subject.now.ends.now)
        (contours_of clip.now.coordinates.now clip.now.ends.now)) }
{
    let _rule = fill_of(numbers.fill)?;
    let by = solver_of(numbers.solver)?;
    let keep = kept_of(numbers.keep_given)?;
    let read = read_both(alloc, subject, clip)?;
    let core = arranged_core(alloc, &read.first, &read.second, keep, by)?;
    let edges = formed(alloc, core.content().edges())?;
    Ok(edges)
}

// Whether given points on one line are kept; `BadOption` from 2 on.
fn kept_of(number: u32) -> Result<bool, Status>
    ensures { MatchResult result (λ b. (number < 2) × (b ≡ keeps_points number)) (λ s. (s ≡ BadOption) × (2 ≤ number)) }
{
    match number {
        0 => Ok(false),
        1 => Ok(true),
        _ => Err(Status::BadOption),
    }
}
