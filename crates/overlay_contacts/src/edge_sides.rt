//! Tests of the filled sides of the edges of a graph.

ghost use Rattle.std.specs.Prelude.{◌≡◌, map};
ghost use Rattle.std.specs.List.{list_any};
ghost use Rattle.overlay_contacts.specs.EdgeSides.{bits_pass, sides_of_bits};

use overlay_given::sides::{FilledSides, SideTest};
use overlay_order::vector::{
    CLIP_LEFT, CLIP_RIGHT, DataVectorEdge, SUBJ_LEFT, SUBJ_RIGHT, SideFill,
};

/// Returns whether the filled sides of some edge pass the test. It looks at them in order, up to the first that does.
pub(crate) fn some_edge_passes<I, D>(edges: &[DataVectorEdge<I, D>], test: SideTest) -> bool
    ensures { result ≡ list_any (bits_pass test) (map (λ v. v.fill) edges.now) }
{
    for edge in edges {
        if bits_pass(test, edge.fill) {
            return true;
        }
    }
    false
}

// Returns whether sides filled so pass the test.
fn bits_pass(test: SideTest, fill: SideFill) -> bool
    ensures { result ≡ bits_pass test fill }
{
    test.passes(sides_of(fill))
}

// Returns the filled sides that the bits tell.
fn sides_of(fill: SideFill) -> FilledSides
    ensures { result ≡ sides_of_bits fill }
{
    FilledSides {
        subj_above: fill & SUBJ_LEFT != 0,
        subj_below: fill & SUBJ_RIGHT != 0,
        clip_above: fill & CLIP_LEFT != 0,
        clip_below: fill & CLIP_RIGHT != 0,
    }
}
