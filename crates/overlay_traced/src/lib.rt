//! Arrangements of edges that tell on which of the given edges each of their edges lies.
#![tactic(auto)]

mod first_pass;
pub mod given;
mod lists;
pub mod mark;
mod matching;
mod naming;
pub mod source;
pub mod told;
pub mod traced;
pub mod wanted;
