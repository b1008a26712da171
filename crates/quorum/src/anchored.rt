// Anchored: the quorums of the rule below that contain one box, the anchor.
ghost use Rattle.std.specs.Prelude.{◌≡◌};
ghost use Rattle.quorum.specs.Families.{anchored};
ghost use Rattle.quorum.specs.Making.{no_box};
ghost use Rattle.quorum.specs.Refusals.{Answers};
ghost use Rattle.quorum.specs.Laws.{anchored_lawful};

use crate::refusals::RuleFault;
use crate::rules::Rule;
use crate::sets::{BoxSet, contains};

#[derive(Clone, Copy, Drop)]
pub struct Anchored<R> {
    rule: R,
    anchor: usize,
}

impl<R: Rule + Drop> Anchored<R> {
    // Declined unless the rule has the anchor as a box.
    pub fn new(rule: R, anchor: usize) -> Result<Anchored<R>, RuleFault>
        ensures { Answers (no_box (R.Rule.family rule).boxes anchor) (λ x. (x.rule ≡ rule) × (x.anchor ≡ anchor)) result }
    {
        if anchor < rule.boxes() {
            Ok(Anchored { rule, anchor })
        } else {
            Err(RuleFault::NoBox)
        }
    }
}

impl<R: Rule> Rule for Anchored<R> {
    ghost family = { λ x. anchored x.anchor (R.Rule.family x.rule) };

    ghost lawful = { λ x. anchored_lawful x.anchor (R.Rule.family x.rule) (R.Rule.lawful x.rule) };

    fn boxes(&self) -> usize {
        self.rule.boxes()
    }

    fn is_quorum(&self, set: BoxSet) -> bool {
        self.rule.is_quorum(set) && (self.anchor >= self.rule.boxes() || contains(set, self.anchor))
    }
}
