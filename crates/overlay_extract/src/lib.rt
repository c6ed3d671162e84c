//! The contours round the region where rules hold of a graph's windings, in shapes or in a list, and the hole that each
//! shape lies in.
#![tactic(auto)]

pub mod assemble;
pub mod binding;
pub mod child_link;
pub mod extract;
pub mod flat_shapes;
pub mod hierarchy;
pub mod in_shapes;
pub mod laws;
mod limits;
pub mod links;
pub mod only_answers;
pub mod slicing;
