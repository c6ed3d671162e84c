//! Simplification of arrays that tells whether a contour stays as it is given.
#![tactic(auto)]

mod contour;
pub mod only_answers;
pub mod shape;
pub mod told;
