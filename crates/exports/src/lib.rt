// What a program in another language can call: rules, runs, books and the seat, on numbers and slices.
#![tactic(auto)]

mod books;
mod calls;
mod flat;
mod lent;
mod numbers;
mod parts;
mod put;
mod room;
mod rules;
mod runs;
