// The book: rows of votes, kept in a list that is lent, and the two guards that each row must meet.
#![tactic(auto)]

pub mod books;
mod entering;
pub mod faults;
mod guards;
mod rows;
mod written;
