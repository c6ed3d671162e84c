//! Options of an overlay in words.

ghost use Rattle.std.specs.Prelude.{◌≡◌, ◌≤◌, ◌∷◌, true, false, MatchOption, IfSome, length, codes};
ghost use Rattle.polyover_text.specs.declared.options.OutputOptions.{OutputOptions};
ghost use Rattle.polyover_text.specs.Grammar.{SetOptions, default_output};
ghost use Rattle.polyover_text.specs.Options.{SetsOption, SetsNothing};
ghost use Rattle.polyover_text.specs.Words.{words_left};

use crate::number::parse_area;
use crate::words::Words;
use overlay_geom::options::ContourDirection;

/// How the output of an overlay is to look.
#[derive(Clone, Copy)]
pub struct OutputOptions {
    /// The direction of outlines; holes run the other way.
    pub output_direction: ContourDirection,
    /// Whether output points on one line with their two neighbours stay; otherwise they are dropped.
    pub preserve_output_collinear: bool,
    /// Whether no contour visits a point twice.
    pub ogc: bool,
    /// The smallest area of a contour that is kept, below 2^127; `None` where none is asked for, which keeps all.
    pub min_output_area: Option<u128>,
}

/// The options that the words set, read from left to right, each at most once. `None` where a word begins
/// no option, one comes twice, or no minimum area follows `min`.
pub(crate) fn parse_options(mut words: Words<'_>) -> Option<OutputOptions>
    ensures { MatchOption result
        ((options : OutputOptions) → ¬ (SetOptions default_output (words_left words.entry) options))
        (λ options. SetOptions default_output (words_left words.entry) options) }
{
    let mut options = OutputOptions::new();
    while let Some(word) = words.next() {
        options = options.with(word, &mut words)?;
    }
    Some(options)
}

impl OutputOptions {
    // Outlines run counterclockwise, points on one line are dropped, contours may visit a point twice, and those of
    // any area are kept.
    fn new() -> OutputOptions
        ensures { result ≡ default_output }
    {
        OutputOptions {
            output_direction: ContourDirection::CounterClockwise,
            preserve_output_collinear: false,
            ogc: false,
            min_output_area: None,
        }
    }

    // The options with the one set that the word names, which takes further words where it needs any.
    // `None` where it names none, or one that is set, or does not find the words that it needs.
    fn with(self, word: &[u8], words: &mut Words<'_>) -> Option<OutputOptions>
        ensures option { MatchOption result
            (SetsNothing self (word.now ∷ words_left words.old))
            (λ new. SetsOption self (word.now ∷ words_left words.old) new (words_left words.new)) }
        ensures fewer { IfSome result (λ _. length (words_left words.new) ≤ length (words_left words.old)) }
    {
        match word {
            b"clockwise" => self.turned_clockwise(),
            b"keep" => self.with_points_kept(),
            b"ogc" => self.with_groups(),
            b"min" => self.with_min_output_area(words),
            _ => None,
        }
    }

    // The options with outlines clockwise, where they are not so already.
    fn turned_clockwise(self) -> Option<OutputOptions>
        ensures { MatchOption result
            (self.output_direction ≡ ContourDirection.Clockwise)
            (λ new. (self.output_direction ≡ ContourDirection.CounterClockwise)
            × (new ≡ record self { output_direction = ContourDirection.Clockwise })) }
    {
        match self.output_direction {
            ContourDirection::CounterClockwise => Some(OutputOptions {
                output_direction: ContourDirection::Clockwise,
                ..self
            }),
            ContourDirection::Clockwise => None,
        }
    }

    // The options with all output points kept, where they are not so already.
    fn with_points_kept(self) -> Option<OutputOptions>
        ensures { MatchOption result
            (self.preserve_output_collinear ≡ true)
            (λ new. (self.preserve_output_collinear ≡ false)
            × (new ≡ record self { preserve_output_collinear = true })) }
    {
        if self.preserve_output_collinear {
            return None;
        }
        Some(OutputOptions {
            preserve_output_collinear: true,
            ..self
        })
    }

    // The options with contours that visit no point twice, where that is not asked for already.
    fn with_groups(self) -> Option<OutputOptions>
        ensures { MatchOption result
            (self.ogc ≡ true)
            (λ new. (self.ogc ≡ false) × (new ≡ record self { ogc = true })) }
    {
        if self.ogc {
            return None;
        }
        Some(OutputOptions { ogc: true, ..self })
    }

    // The options with the minimum area that the next word writes, where none is set already.
    fn with_min_output_area(self, words: &mut Words<'_>) -> Option<OutputOptions>
        ensures option { MatchOption result
            (SetsNothing self (codes "min" ∷ words_left words.old))
            (λ new. SetsOption self (codes "min" ∷ words_left words.old) new (words_left words.new)) }
        ensures fewer { IfSome result (λ _. length (words_left words.new) ≤ length (words_left words.old)) }
    {
        if self.min_output_area.is_some() {
            return None;
        }
        let area = parse_area(words.next()?)?;
        Some(OutputOptions {
            min_output_area: Some(area),
            ..self
        })
    }
}
