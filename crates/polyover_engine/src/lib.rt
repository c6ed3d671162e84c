//! The engine of the program: an input is read, parsed, answered and written.
#![tactic(auto)]

mod answer;
mod borrowed_subject;
mod builder;
mod clip;
mod edges;
pub mod engine;
pub mod exit;
mod hierarchy;
pub mod only_exits;
pub mod only_texts;
mod overlay;
mod points;
mod predicate_builder;
mod read;
pub mod read_turns;
mod relations;
mod room;
mod slice;
mod string_builder;
mod subject;
mod tiles;
pub mod turn;
mod write;
pub mod write_turns;
