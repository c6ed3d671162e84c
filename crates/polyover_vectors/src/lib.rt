//! Calls for C that tell which sides each step of a contour fills.
#![tactic(auto)]

pub mod flat;
pub mod held;
pub mod vectors;
