//! The exports of the library for C, by topics. Each stands at 64 and then at 32 bits. `include/polyover.h` at the top
//! of the repository says in C's words what each call does.
#![tactic(auto)]

pub mod clip;
pub mod edges;
pub mod graph;
pub mod held;
pub mod hierarchy;
pub mod locate;
pub mod located;
pub mod overlay;
pub mod prepared;
pub mod relate;
pub mod relate_exact;
pub mod relate_one_exact;
pub mod simplify;
pub mod simplify_shape;
pub mod slice;
pub mod slice_custom;
pub mod test;
pub mod tiles;
pub mod traced;
pub mod vectors;
