//! Callers of the library, which are proved by the contracts of its public calls alone.
#![tactic(auto)]

pub mod all_slices;
pub mod answered_run;
pub mod asked_query;
pub mod clipped_line;
pub mod closed_walks;
pub mod common_shapes;
pub mod contours_left;
pub mod cut_shape;
pub mod located_points;
pub mod numbered_edges;
pub mod parcels;
pub mod prepared_location;
pub mod roads;
pub mod settled_contour;
pub mod simple_contours;
pub mod split_edges;
pub mod split_held;
pub mod touching_holes;
pub mod triangle_area;
pub mod union_of;
