//! The engine: an input is read, parsed, answered and written.

pub use polyover_engine::engine::run;
