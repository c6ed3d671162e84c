//! The graph of an arrangement: the windings below its edges, the sides that the shapes fill, and balance.
#![tactic(auto)]

pub mod balance;
mod counted_end;
pub mod fill;
mod fill_rays;
pub mod fill_sweep;
pub mod fill_test;
pub mod graph;
mod starts;
pub mod windings;
