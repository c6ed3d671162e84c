//! Relations of arrays as they are given, without rounding, for C.
#![tactic(auto)]

pub mod only_answers;
pub mod relate;
pub mod relate_one;
