// Rewriting: what a rule and a merge make of a query in words.
#![tactic(auto)]

pub mod steps;
