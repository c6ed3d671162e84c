//! Shapes of arrays as they are given, asked without rounding where points lie, for C.
#![tactic(auto)]

pub mod only_answers;
pub mod points;
pub mod prepare;
pub mod shape;
