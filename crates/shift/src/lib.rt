// The text of a shift: lines of a key and a value, read in turn, and the forms that values have.
#![tactic(auto)]

pub mod classes;
pub mod faults;
pub mod forms;
pub mod line;
pub mod list;
pub mod names;
pub mod numbers;
mod parts;
pub mod reader;
