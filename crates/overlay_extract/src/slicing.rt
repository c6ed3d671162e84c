//! Slicing: the filled sides of the edges of an arrangement, walked along and cut into loops, and the shapes that the
//! loops make.

pub mod cutter;
pub mod direction;
pub mod filled_sides;
pub mod laws;
pub mod loops;
pub mod only_slices;
pub mod orbits;
pub mod roles;
mod sides;
pub mod sliced_shapes;
pub mod slices;
mod tour_order;
pub mod tours;
mod visits;
