// All-present: the quorums of the rule below, and only the whole roster is clear.
ghost use Rattle.std.specs.Prelude.{◌≡◌};
ghost use Rattle.quorum.specs.Families.{present};
ghost use Rattle.quorum.specs.Laws.{present_clear};

use crate::rules::{ClearView, Rule};
use crate::sets::{BoxSet, all_below};

#[derive(Clone, Copy, Drop)]
pub struct AllPresent<R> {
    rule: R,
}

impl<R: Rule> AllPresent<R> {
    // Over any rule.
    pub fn new(rule: R) -> AllPresent<R>
        ensures { result.rule ≡ rule }
    {
        AllPresent { rule }
    }
}

impl<R: Rule> Rule for AllPresent<R> {
    ghost family = { λ x. R.Rule.family x.rule };

    ghost lawful = { λ x. R.Rule.lawful x.rule };

    fn boxes(&self) -> usize {
        self.rule.boxes()
    }

    fn is_quorum(&self, set: BoxSet) -> bool {
        self.rule.is_quorum(set)
    }
}

impl<R: Rule> ClearView for AllPresent<R> {
    ghost clear = { λ x. present (R.Rule.family x.rule) };

    ghost clear_lawful = { λ x. present_clear (R.Rule.family x.rule) (R.Rule.lawful x.rule) };

    fn is_clear(&self, set: BoxSet) -> bool {
        set == all_below(self.rule.boxes())
    }
}
