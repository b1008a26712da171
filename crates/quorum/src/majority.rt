// Majority: a quorum has more than half of the boxes.
ghost use Rattle.std.specs.Prelude.{◌≡◌};
ghost use Rattle.quorum.specs.Families.{majority};
ghost use Rattle.quorum.specs.Making.{no_roster};
ghost use Rattle.quorum.specs.Refusals.{Answers};
ghost use Rattle.quorum.specs.Laws.{majority_lawful};

use crate::refusals::RuleFault;
use crate::rosters::Roster;
use crate::rules::Rule;
use crate::sets::{BoxSet, fits, size};

#[derive(Clone, Copy)]
pub struct Majority {
    roster: Roster,
}

impl Majority {
    // Declined unless the roster has 1 to 32 boxes.
    pub fn new(boxes: usize) -> Result<Majority, RuleFault>
        ensures { Answers (no_roster boxes) (λ x. x.roster.boxes ≡ boxes) result }
    {
        Ok(Majority {
            roster: Roster::new(boxes)?,
        })
    }
}

impl Rule for Majority {
    ghost family = { λ x. majority x.roster.boxes };

    ghost lawful = { λ x. majority_lawful x.roster.boxes x.roster.sized };

    fn boxes(&self) -> usize {
        self.roster.boxes()
    }

    fn is_quorum(&self, set: BoxSet) -> bool {
        let boxes = self.roster.boxes();
        fits(set, boxes) && 2 * size(set) > boxes
    }
}
