//! Filled sides of pieces of edges, and tests of them.

ghost use Rattle.std.specs.Prelude.{◌≡◌, ◌||◌};
ghost use Rattle.std.specs.List.{list_any};
ghost use Rattle.overlay_given.specs.Sides.{sides_pass};

/// The sides of a piece that the subject and the clip fill.
#[derive(Debug, Clone, Copy, PartialEq, Eq)]
pub struct FilledSides {
    /// The subject fills the side above.
    pub subj_above: bool,
    /// The subject fills the side below.
    pub subj_below: bool,
    /// The clip fills the side above.
    pub clip_above: bool,
    /// The clip fills the side below.
    pub clip_below: bool,
}

/// The filled sides of the two pieces of an edge that end at a place of it, in their order along the edge. One piece
/// alone ends where the edge starts or ends: both are its sides.
#[derive(Debug, Clone, Copy, PartialEq, Eq)]
pub struct SidesAtPlace {
    /// The sides of the piece before the place.
    pub before: FilledSides,
    /// Those of the piece after it.
    pub after: FilledSides,
}

impl SidesAtPlace {
    /// Returns whether one of the pieces passes the test.
    pub fn pass(self, test: SideTest) -> bool
        ensures { result ≡ (sides_pass test self.before || sides_pass test self.after) }
    {
        test.passes(self.before) || test.passes(self.after)
    }
}

/// A test of the filled sides of a piece.
#[derive(Debug, Clone, Copy, PartialEq, Eq)]
pub enum SideTest {
    /// The subject fills a side, and the clip does.
    BothShapes,
    /// Both fill the same side.
    CommonSide,
    /// The subject fills a side.
    SubjectSide,
    /// The subject fills a side that the clip does not fill.
    SubjectOutside,
    /// The clip fills a side.
    ClipSide,
    /// The clip fills a side that the subject does not fill.
    ClipOutside,
    /// The subject alone fills exactly one side.
    SubjectBorder,
    /// The clip alone fills exactly one side.
    ClipBorder,
}

impl SideTest {
    /// Returns whether the sides pass the test.
    pub fn passes(self, sides: FilledSides) -> bool
        ensures { result ≡ sides_pass self sides }
    {
        let is_subj = sides.subj_above || sides.subj_below;
        let is_clip = sides.clip_above || sides.clip_below;
        match self {
            SideTest::BothShapes => is_subj && is_clip,
            SideTest::CommonSide => {
                (sides.subj_above && sides.clip_above) || (sides.subj_below && sides.clip_below)
            }
            SideTest::SubjectSide => is_subj,
            SideTest::SubjectOutside => {
                (sides.subj_above && !sides.clip_above) || (sides.subj_below && !sides.clip_below)
            }
            SideTest::ClipSide => is_clip,
            SideTest::ClipOutside => {
                (sides.clip_above && !sides.subj_above) || (sides.clip_below && !sides.subj_below)
            }
            SideTest::SubjectBorder => sides.subj_above != sides.subj_below && !is_clip,
            SideTest::ClipBorder => sides.clip_above != sides.clip_below && !is_subj,
        }
    }
}

/// Returns whether some sides of the list pass the test.
pub fn some_pass(sides: &[FilledSides], test: SideTest) -> bool
    ensures { result ≡ list_any (sides_pass test) sides.now }
{
    for piece in sides {
        if test.passes(*piece) {
            return true;
        }
    }
    false
}
