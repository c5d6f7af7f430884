// The variables of a query in words: their set, the unbound ones, and the fresh one.
#![tactic(auto)]

pub mod fresh;
pub mod unbound;
pub mod used;
