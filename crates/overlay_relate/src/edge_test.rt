//! What is looked for among the filled sides of edges.

ghost use Rattle.std.specs.Prelude.{◌≡◌, map};
ghost use Rattle.std.specs.List.{list_any};
ghost use Rattle.overlay_relate.specs.EdgeTests.{bits_pass, sides_pass};

use overlay_graph::fill_test::FillTest;
use overlay_order::vector::{
    CLIP_LEFT, CLIP_RIGHT, DataVectorEdge, SUBJ_LEFT, SUBJ_RIGHT, SideFill,
};

/// What the filled sides of an edge are tested for.
#[derive(Clone, Copy)]
pub enum EdgeTest {
    /// The subject fills a side, and the clip does.
    BothShapes,
    /// Both fill the same side.
    CommonSide,
    /// The subject fills a side.
    SubjectSide,
    /// The subject fills a side that the clip does not fill.
    SubjectOutside,
    /// The clip fills a side.
    ClipSide,
    /// The clip fills a side that the subject does not fill.
    ClipOutside,
}

impl FillTest for EdgeTest {
    ghost use Rattle.overlay_relate.specs.EdgeTests.{bits_pass};

    ghost passing = { bits_pass };

    fn passes(self, fill: SideFill) -> bool {
        sides_pass(
            self,
            fill & SUBJ_LEFT != 0,
            fill & SUBJ_RIGHT != 0,
            fill & CLIP_LEFT != 0,
            fill & CLIP_RIGHT != 0,
        )
    }
}

/// Returns whether some edge passes the test. It looks at them in order, up to the first that does.
pub fn some_passes<I, D>(edges: &[DataVectorEdge<I, D>], test: EdgeTest) -> bool
    ensures { result ≡ list_any (bits_pass test) (map (λ v. v.fill) edges.now) }
{
    for edge in edges {
        if test.passes(edge.fill) {
            return true;
        }
    }
    false
}

// Returns whether sides filled so pass the test.
fn sides_pass(
    test: EdgeTest,
    subj_above: bool,
    subj_below: bool,
    clip_above: bool,
    clip_below: bool,
) -> bool
    ensures { result ≡ sides_pass test subj_above subj_below clip_above clip_below }
{
    match test {
        EdgeTest::BothShapes => (subj_above || subj_below) && (clip_above || clip_below),
        EdgeTest::CommonSide => (subj_above && clip_above) || (subj_below && clip_below),
        EdgeTest::SubjectSide => subj_above || subj_below,
        EdgeTest::SubjectOutside => (subj_above && !clip_above) || (subj_below && !clip_below),
        EdgeTest::ClipSide => clip_above || clip_below,
        EdgeTest::ClipOutside => (clip_above && !subj_above) || (clip_below && !subj_below),
    }
}
