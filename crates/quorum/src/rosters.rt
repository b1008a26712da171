// A roster of 1 to 32 boxes, numbered from 0.
ghost use Rattle.std.specs.Prelude.{◌≡◌};
ghost use Rattle.quorum.specs.Making.{no_roster};
ghost use Rattle.quorum.specs.Refusals.{Answers};
ghost use Rattle.quorum.specs.Rules.{Roster as Sized};

use crate::refusals::RuleFault;
use crate::sets::MAX_BOXES;

#[derive(Clone, Copy)]
pub struct Roster {
    boxes: usize,
    ghost sized: { Sized boxes },
}

impl Roster {
    // Declined unless it has 1 to 32 boxes.
    pub fn new(boxes: usize) -> Result<Roster, RuleFault>
        ensures { Answers (no_roster boxes) (λ x. x.boxes ≡ boxes) result }
    {
        if (1..=MAX_BOXES).contains(&boxes) {
            Ok(Roster { boxes })
        } else {
            Err(RuleFault::Roster)
        }
    }

    pub fn boxes(&self) -> usize
        ensures { result ≡ self.now.boxes }
    {
        self.boxes
    }
}
