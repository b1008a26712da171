// The procedures Fast, Observing and Latest, over every rule and kind of setup, and the standard licence.
#![tactic(auto)]

pub mod fast;
pub mod fields;
pub mod latest;
pub mod licence;
pub mod observing;
pub mod received;
