//! Walks along the steps of an arrangement: the next step at a node, orbits, contours and their roles.
#![tactic(auto)]

pub mod area;
pub mod as_graph;
pub mod buffer;
pub mod contour;
pub mod contour_cut;
mod fan_order;
mod fans;
pub mod filled_side;
mod group_contours;
pub mod groups;
pub mod hand;
pub mod kept_contours;
mod leftmost;
pub mod nearest;
pub mod next;
pub mod numbered_edge;
pub mod onward;
mod open_places;
pub mod open_steps;
pub mod points_once;
pub mod selected_steps;
pub mod selected_walks;
pub mod step;
mod top_first;
