//! The parts that builders share: closed and open paths as counted edges, and the core that holds them.
#![tactic(auto)]

pub mod balanced_graph;
pub mod boolean;
pub mod builder_core;
pub mod only_contents;
pub mod path;
pub mod path_windings;
pub mod points;
mod single_step;
pub mod solver;
