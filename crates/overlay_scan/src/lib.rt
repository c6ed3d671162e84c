//! The live edges of a sweep from bottom to top, in a list, in a balanced tree, or in a list that turns into a tree.
#![tactic(auto)]

mod ends;
pub mod laws;
pub mod list;
mod live;
pub mod only_sweeps;
pub mod scan;
mod search;
pub mod tree;
