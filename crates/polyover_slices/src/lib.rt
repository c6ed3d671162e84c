//! Slices of arrays by options: in either direction, and without small contours.
#![tactic(auto)]

pub mod asked;
pub mod only_answers;
pub mod options;
mod shapes;
