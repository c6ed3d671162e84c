//! The mathematics of the plane that the overlay crates rest on: edges over a vertical line, balance, windings,
//! regions, nodes and orbits. Each function here does nothing when it runs: its contract is a law, which the check
//! proves.
#![tactic(auto)]

pub mod adding;
pub mod arranging;
pub mod balance;
pub mod beside_orbits;
pub mod binding;
pub mod contour_winding;
pub mod contours;
pub mod cutting;
pub mod greatest;
pub mod groups;
pub mod half_planes;
pub mod islands;
pub mod kept_contours;
pub mod leftmost;
pub mod meeting;
pub mod next_step;
pub mod next_winding;
pub mod node;
pub mod only_arrangement;
pub mod orbit;
pub mod order;
pub mod predicates;
pub mod rays;
pub mod region;
pub mod selected;
pub mod shapes_alone;
pub mod side;
pub mod snapping;
pub mod spoke;
pub mod thinning;
