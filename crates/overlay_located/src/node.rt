//! A list of edges, divided by a slab: a chain of those that span it, and others.

ghost use Rattle.std.specs.Prelude.{IfOk};
ghost use Rattle.overlay_located.specs.Slabs.{plain_lines, plain_slab, AreDivided};
ghost use Rattle.overlay_located.specs.Chains.{plain_links, HasChain};

use crate::chain::{Link, chain_of};
use crate::heights::compare_heights;
use crate::line::Line;
use crate::slab::{Slab, is_beside, spans};
use overlay_geom::number::IntNumber;
use overlay_order::count::EdgeCount;
use std::alloc::{AllocError, Allocator};

/// A chain of edges that span a slab, and the other edges that have points in it.
#[derive(Drop)]
pub(crate) struct Node<I: IntNumber, C: EdgeCount, A: Allocator> {
    /// The chain.
    pub chain: Vec<Link<I, C>, A>,
    /// The others.
    pub kept: Vec<Line<I, C>, A>,
    /// Whether the chain has few of the edges that span the slab: they cross.
    pub is_crossed: bool,
}

/// Returns the edges divided by the slab.
pub(crate) fn node_over<I: IntNumber, C: EdgeCount, A: Allocator + Clone>(
    alloc: A,
    lines: &[Line<I, C>],
    slab: Slab<I>,
) -> Result<Node<I, C, A>, AllocError>
    ensures { IfOk result (λ n. HasChain (plain_slab I.whole slab) (plain_lines I.whole C.counts lines.now)
        (plain_links I.whole C.counts n.chain.items) (plain_lines I.whole C.counts n.kept.items)) }
{
    let parts = divide(alloc.clone()?, lines, slab)?;
    let mut spanning = parts.spanning;
    let mut kept = parts.kept;
    spanning.sort_by(|e, f| compare_heights(e, f))?;
    let chain = chain_of(alloc, &spanning, &mut kept)?;
    let is_crossed = chain.len() < spanning.len() / 2;
    Ok(Node {
        chain,
        kept,
        is_crossed,
    })
}

// Edges that span a slab, and others that have points in it.
#[derive(Drop)]
struct Divided<I: IntNumber, C: EdgeCount, A: Allocator> {
    // those that span it
    spanning: Vec<Line<I, C>, A>,
    // the others
    kept: Vec<Line<I, C>, A>,
}

// Returns the edges that span the slab, and the others with points in it.
fn divide<I: IntNumber, C: EdgeCount, A: Allocator + Clone>(
    alloc: A,
    lines: &[Line<I, C>],
    slab: Slab<I>,
) -> Result<Divided<I, C, A>, AllocError>
    ensures { IfOk result (λ d. AreDivided (plain_slab I.whole slab) (plain_lines I.whole C.counts lines.now)
        (plain_lines I.whole C.counts d.spanning.items) (plain_lines I.whole C.counts d.kept.items)) }
{
    let mut spanning = Vec::new(alloc.clone()?);
    let mut kept = Vec::new(alloc);
    for line in lines {
        if spans(slab, &line.edge) {
            spanning.push(Line { edge: line.edge })?;
        } else if !is_beside(slab, &line.edge) {
            kept.push(Line { edge: line.edge })?;
        }
    }
    Ok(Divided { spanning, kept })
}
