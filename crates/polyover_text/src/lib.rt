//! The text that the program reads and writes: lines, words, numbers, contours and the command of an
//! input, and the lines of an answer.
#![tactic(auto)]

pub mod clip_options;
mod command;
pub mod contour;
pub mod edge_text;
pub mod figures;
mod fill;
pub mod flat_shape_text;
pub mod input;
mod line_error;
mod lines;
pub mod link_text;
pub mod location_text;
mod number;
pub mod one_input;
pub mod options;
pub mod path_text;
mod points;
pub mod query;
pub mod relations_text;
mod rule;
pub mod shape_text;
mod split;
mod statement;
mod words;
