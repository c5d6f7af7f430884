// The bytes of records: moved, written, cleared, and compared as numbers.
#![tactic(auto)]

pub mod moves;
pub mod numbers;
