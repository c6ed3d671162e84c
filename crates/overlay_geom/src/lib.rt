//! Points with whole coordinates: numbers, points, vectors, rules and errors of the overlay crates.
#![tactic(auto)]

pub mod edge;
pub mod edge_pair;
pub mod error;
pub mod fill_rule;
pub mod flat;
pub mod integer;
pub mod laws;
pub mod number;
pub mod options;
pub mod overlay_rule;
pub mod path;
pub mod point;
pub mod resolved;
pub mod resource;
pub mod solver;
pub mod thin;
pub mod vector;
