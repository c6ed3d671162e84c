//! Graphs that C holds: arrangements that are made once, and asked as often as wanted.
#![tactic(auto)]

pub mod arranged;
pub mod asked;
pub mod graph;
pub mod laws;
pub mod made;
pub mod only_answers;
mod taken;
