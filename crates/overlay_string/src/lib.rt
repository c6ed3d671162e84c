//! Strings, which are open or closed lines, over a shape.
#![tactic(auto)]

mod by_start;
pub mod clip;
pub mod clip_rule;
mod joined_paths;
mod kept_pieces;
pub mod laws;
pub mod lines;
pub mod only_answers;
pub mod only_clips;
mod open_pieces;
mod piece;
mod role;
pub mod slice;
pub mod string_graph;
pub mod string_overlay;
pub mod string_rule;
mod taken_pieces;
