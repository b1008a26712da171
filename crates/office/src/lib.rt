// The office's answer to a shift: from the bytes of its text to the lines that show who voted for what.
#![tactic(auto)]

pub mod answers;
pub mod events;
mod head;
mod named_procedure;
mod named_rule;
pub mod printouts;
pub mod rows;
mod signs;
mod work;
