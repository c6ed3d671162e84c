//! Counted edges, what they carry, and sorts that put edges, points and small numbers in order.
#![tactic(auto)]

pub mod count;
pub mod data;
pub mod edge;
pub mod gather;
pub mod sort_numbers;
pub mod sort_points;
pub mod sort_runs;
mod sort_words;
pub mod string_count;
pub mod vector;
