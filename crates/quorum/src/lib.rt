// Sets of boxes, the refusals of every layer, and the rules that say which sets are quorums.
#![tactic(auto)]

pub mod anchored;
pub mod chosen;
pub mod majority;
pub mod members;
pub mod present;
pub mod refusals;
pub mod rosters;
pub mod rules;
pub mod sets;
pub mod sizes;
