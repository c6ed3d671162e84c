//! Binding: the shapes that holes belong to, the holes round islands, and the places of contours in their shapes.

pub mod anchor;
pub mod bind;
mod by_start;
mod filled_above_edges;
pub mod islands;
pub(crate) mod known_shapes;
pub mod placed;
pub mod places;
mod sweep;
