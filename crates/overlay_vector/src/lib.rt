//! Edges that carry data: their builder, and the edges and contours of its answers.
#![tactic(auto)]

mod balance;
pub mod edge_overlay;
pub mod edges;
pub mod graph_vectors;
pub mod input_edge;
mod joining;
pub mod laws;
pub mod path;
pub mod selected_vectors;
pub mod side_fill;
pub mod vector_contours;
pub mod vector_shapes;
