//! Where points lie in shapes of contours, many points together: nothing is rounded.
#![tactic(auto)]

mod chain;
mod contour_edges;
pub mod contours;
mod depth;
pub mod exact_shape;
mod few;
mod heights;
pub mod laws;
mod line;
pub mod located;
mod node;
pub mod only_locations;
mod parity;
pub mod parts;
pub mod query;
pub mod resolved_contours;
mod slab;
pub mod together;
mod told;
mod told_once;
mod uprights;
