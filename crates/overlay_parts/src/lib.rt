//! Edges on one line, parted at each other's ends.
#![tactic(auto)]

pub mod lines;
pub mod parting;
pub mod parts;
