//! The arrangement of contours. Counted edges are merged, and cut until they meet in ends alone.
#![tactic(auto)]

mod batches;
pub mod content;
mod course;
mod crossing;
mod cut;
mod hot;
mod limits;
mod meetings;
mod merge;
mod parting;
mod pixel;
mod pixel_runs;
mod repeats;
mod rounds;
mod settling;
mod snap;
mod snapping;
mod whole;
