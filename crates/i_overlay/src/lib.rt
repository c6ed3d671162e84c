//! Boolean operations on polygons with whole coordinates.
//!
//! Contours are added to an [`overlay::Overlay`] as subject or clip, and queries are answered on
//! what was added. [`single::SingleIntOverlay`] answers in one call, and [`simplify::Simplify`] gives clean
//! shapes of one resource. [`relate::IntRelate`] tells how two resources lie to each other.
#![tactic(auto)]

pub mod edge_data;
pub mod edge_overlay;
pub mod error;
pub mod extract;
pub mod fill_rule;
pub mod graph;
pub mod hierarchy;
pub mod i_float;
pub mod i_shape;
pub mod integer;
pub mod only_answers;
pub mod only_queries;
pub mod only_simplified;
pub mod overlay;
pub mod overlay_rule;
pub mod point_location;
pub mod relate;
pub mod relation_laws;
pub mod scan;
pub mod segm;
pub mod simplify;
pub mod simplifying;
pub mod single;
pub mod snapped_far;
pub mod solver;
pub mod string;
pub mod tiles;
pub mod vector;
mod viewed_graph;
