//! How a run of the engine ends.

pub use polyover_engine::exit::Exit;
