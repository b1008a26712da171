// The agreement: slips, procedures that rewrite them, runs of a procedure, and the promise that every run keeps.
#![tactic(auto)]

mod beats;
mod checks;
pub mod clocks;
pub mod faults;
mod hearing;
pub mod procedures;
pub mod runs;
pub mod slips;
mod tables;
