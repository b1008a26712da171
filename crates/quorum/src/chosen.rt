// A rule that is chosen while a program runs, with the sets that Fast takes for clear over it.
ghost use Rattle.quorum.specs.Chosen.{chosen_clear, chosen_lawful, clear_of, family_of};

use crate::anchored::Anchored;
use crate::majority::Majority;
use crate::present::AllPresent;
use crate::rules::{ClearView, Rule};
use crate::sets::BoxSet;
use crate::sizes::Sizes;

#[derive(Clone, Copy)]
pub enum ChosenRule {
    Majority(AllPresent<Majority>),
    Sizes(Sizes),
    AnchoredMajority(AllPresent<Anchored<Majority>>),
    AnchoredSizes(AllPresent<Anchored<Sizes>>),
}

impl Rule for ChosenRule {
    ghost family = { family_of };

    ghost lawful = { chosen_lawful };

    fn boxes(&self) -> usize {
        match self {
            ChosenRule::Majority(rule) => rule.boxes(),
            ChosenRule::Sizes(rule) => rule.boxes(),
            ChosenRule::AnchoredMajority(rule) => rule.boxes(),
            ChosenRule::AnchoredSizes(rule) => rule.boxes(),
        }
    }

    fn is_quorum(&self, set: BoxSet) -> bool {
        match self {
            ChosenRule::Majority(rule) => rule.is_quorum(set),
            ChosenRule::Sizes(rule) => rule.is_quorum(set),
            ChosenRule::AnchoredMajority(rule) => rule.is_quorum(set),
            ChosenRule::AnchoredSizes(rule) => rule.is_quorum(set),
        }
    }
}

impl ClearView for ChosenRule {
    ghost clear = { clear_of };

    ghost clear_lawful = { chosen_clear };

    fn is_clear(&self, set: BoxSet) -> bool {
        match self {
            ChosenRule::Majority(rule) => rule.is_clear(set),
            ChosenRule::Sizes(rule) => rule.is_clear(set),
            ChosenRule::AnchoredMajority(rule) => rule.is_clear(set),
            ChosenRule::AnchoredSizes(rule) => rule.is_clear(set),
        }
    }
}
