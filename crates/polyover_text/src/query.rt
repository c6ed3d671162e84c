//! What an input asks for.

use crate::clip_options::KeptParts;
use crate::options::OutputOptions;
use overlay_geom::fill_rule::FillRule;
use overlay_geom::overlay_rule::OverlayRule;

/// A query, and the number of the command's line.
#[derive(Clone, Copy)]
pub struct NumberedQuery {
    /// The number of the line, counted from 1.
    pub line: usize,
    /// What is asked for.
    pub query: Query,
}

/// What an input asks for.
#[derive(Clone, Copy)]
pub enum Query {
    /// The edges of the contours' arrangement, with the sides that are filled under this rule.
    Edges(FillRule),
    /// The shapes of an overlay.
    Overlay(OverlayQuery),
    /// The shapes of an overlay, and links from holes to the shapes in them.
    Hierarchy(OverlayQuery),
    /// The relations of the subject and the clip under this rule.
    Relate(FillRule),
    /// The parts of the lines that a clip by the subject keeps.
    ClipLines(ClipQuery),
    /// The shapes into which the lines cut the subject under this rule.
    Slice(FillRule),
    /// The shapes into which a grid cuts the subject.
    Tiles(TilesQuery),
    /// Whether each point is inside the subject.
    Contains,
    /// Where each point lies in the subject.
    Locate,
}

/// The rules of an overlay, and how its output is to look.
#[derive(Clone, Copy)]
pub struct OverlayQuery {
    /// Which points the result takes, by which of the two shapes fill them.
    pub overlay_rule: OverlayRule,
    /// Which windings are filled.
    pub fill_rule: FillRule,
    /// How the output is to look.
    pub output: OutputOptions,
}

/// The rule of a clip, and which parts of the lines it keeps.
#[derive(Clone, Copy)]
pub struct ClipQuery {
    /// Which windings are filled.
    pub fill_rule: FillRule,
    /// Which parts are kept.
    pub options: KeptParts,
}

/// The rule of tiles, and the grid along which the subject is cut. A side of its cells that was given out of the
/// coordinate range is 0: no grid has cells of either.
#[derive(Clone, Copy)]
pub struct TilesQuery {
    /// Which windings are filled.
    pub fill_rule: FillRule,
    /// Width of a cell.
    pub width: i64,
    /// Height of a cell.
    pub height: i64,
}
