// Kinds of setup, in order, the one search that finds the first among the boxes of a set, and the boxes that have a setup.
#![tactic(auto)]

pub mod cards;
pub mod dated;
pub mod having;
pub mod numbers;
pub mod orders;
pub mod search;
