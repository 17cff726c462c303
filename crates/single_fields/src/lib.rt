// Refusals 3, 12 and 13 of a single field. A module for each group of them.
#![tactic(auto)]

pub mod empty;
pub mod place;
