// Comparison of two queries: the smallest renaming from the one to the other.
#![tactic(auto)]

pub mod compared;
pub mod search;
