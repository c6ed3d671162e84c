//! Settings of how edges are split where they meet.

pub use overlay_geom::solver::Solver;
