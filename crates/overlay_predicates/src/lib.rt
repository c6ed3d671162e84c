//! How a subject and a clip lie to each other as they were added: nothing is rounded.
#![tactic(auto)]

pub mod exact_predicates;
pub mod laws;
mod merged;
mod merged_relations;
pub mod only_relations;
pub mod relate_exact;
