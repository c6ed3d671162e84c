//! Exact places of meeting points along edges, compared without rounding: nothing here moves a point.
#![tactic(auto)]

pub mod along;
pub mod exact_int;
mod fraction;
pub mod group;
pub mod laws;
pub mod meetings;
pub mod met;
pub mod part;
mod passed;
pub mod place;
pub mod point_windings;
pub mod winding;
