//! Calls for C that take edges and tell of each edge of the answer the given edges that it comes from.
#![tactic(auto)]

pub mod edge_list;
pub mod held;
pub mod trace;
