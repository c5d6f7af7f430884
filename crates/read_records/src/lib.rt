// What the readers of the four sheets share: reciprocal names, terms and atoms.
#![tactic(auto)]

pub mod partners;
pub mod terms;
