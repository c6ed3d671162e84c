//! What an input asks is one thing.

ghost use Rattle.polyover_text.specs.OneInput.{OneInput, OneBadLine, InputsHaveNoBadLine};

/// Lines that ask for one query on some figures ask for no other, and on no others.
pub fn one_input()
    ensures { OneInput }
{}

/// Of lines that are no input one line alone is the first bad one, and of an input none is.
pub fn one_bad_line()
    ensures one { OneBadLine }
    ensures none { InputsHaveNoBadLine }
{}
