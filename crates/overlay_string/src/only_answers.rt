//! What a call answers that clips or slices along strings is the only answer to its arguments, by snap rounding.

ghost use Rattle.overlay_string.specs.OneAnswer.{OneClipOfStrings, OneSlicingAlongStrings};
ghost use Rattle.overlay_string.specs.OneAnswer.{AnsweredStringsAreRefusedByMemoryAlone};

/// Two lists of paths that a clip leaves of the same strings over the same shape are equal, by snap rounding. So are
/// two lists of the shapes into which the shape is sliced along the strings.
pub fn one_answer()
    ensures clips { OneClipOfStrings }
    ensures slices { OneSlicingAlongStrings }
{}

/// Strings over a shape to which snap rounding gives a clip or slices are refused only where memory is.
pub fn memory_alone_refuses()
    ensures { AnsweredStringsAreRefusedByMemoryAlone }
{}
