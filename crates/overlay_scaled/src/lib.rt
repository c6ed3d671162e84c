//! The mathematics of relations that are exact on the contours as given: scaled by a suitable whole number, the edges
//! meet in whole points alone, and one cutting round of them is an arrangement with their windings. Each function here
//! does nothing when it runs: its contract is a law, which the check proves.
#![tactic(auto)]

pub mod arranging;
pub mod beside;
pub mod plain;
pub mod scaling;
