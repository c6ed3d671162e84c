//! Where points lie: inside contours and shapes, on their edges, or outside; and how two shapes lie to each other.
#![tactic(auto)]

pub mod blocks;
mod border_end;
mod boundary;
mod by_edge;
pub mod containment;
mod contour_edges;
mod edge_answers;
pub mod edge_test;
mod finding;
pub mod form;
mod found;
pub mod in_contour;
pub mod in_shapes;
mod joined;
pub mod laws;
pub mod location;
pub mod only_relations;
mod order;
mod predicate;
pub mod predicate_laws;
pub mod predicate_overlay;
pub mod prepared;
mod queries;
pub mod relations;
pub mod resolved;
mod runs;
pub mod shared_end;
mod starts;
mod sweep;
mod walls;
mod wide_edge;
