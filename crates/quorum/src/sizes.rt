// Sizes: a set is a quorum, and clear, by how many boxes it has.
ghost use Rattle.std.specs.Prelude.{◌≡◌, true};
ghost use Rattle.quorum.specs.Families.{at_least, sizes, thirds};
ghost use Rattle.quorum.specs.Making.{fit, no_roster, no_size};
ghost use Rattle.quorum.specs.Refusals.{Answers, either};
ghost use Rattle.quorum.specs.Fitting.{sizes_lawful, sizes_clear};

use crate::refusals::RuleFault;
use crate::rosters::Roster;
use crate::rules::{ClearView, Rule};
use crate::sets::{BoxSet, fits, size};

#[derive(Clone, Copy)]
pub struct Sizes {
    roster: Roster,
    quorum: usize,
    clear: usize,
    ghost fitting: { fit roster.boxes quorum clear ≡ true },
}

impl Sizes {
    // A quorum of `quorum` boxes or more, a clear set of `clear` or more.
    pub fn new(boxes: usize, quorum: usize, clear: usize) -> Result<Sizes, RuleFault>
        ensures { Answers (either (no_roster boxes) (no_size boxes quorum clear)) (λ x. (x.roster.boxes ≡ boxes) × (x.quorum ≡ quorum) × (x.clear ≡ clear)) result }
    {
        let roster = Roster::new(boxes)?;
        if quorum <= clear && clear <= boxes && 2 * quorum + clear > 2 * boxes {
            Ok(Sizes {
                roster,
                quorum,
                clear,
            })
        } else {
            Err(RuleFault::Size)
        }
    }

    // More than two thirds for both.
    pub fn thirds(boxes: usize) -> Result<Sizes, RuleFault>
        ensures { Answers (no_roster boxes) (λ x. (x.roster.boxes ≡ boxes) × (x.quorum ≡ thirds boxes) × (x.clear ≡ thirds boxes)) result }
    {
        let roster = Roster::new(boxes)?;
        let most = 2 * boxes / 3 + 1;
        Ok(Sizes {
            roster,
            quorum: most,
            clear: most,
        })
    }

    // Whether the set has no stranger, and this many boxes or more.
    fn has_at_least(&self, least: usize, set: BoxSet) -> bool
        ensures { result ≡ at_least self.now.roster.boxes least set }
    {
        fits(set, self.roster.boxes()) && size(set) >= least
    }
}

impl Rule for Sizes {
    ghost family = { λ x. sizes x.roster.boxes x.quorum };

    ghost lawful = { λ x. sizes_lawful x.roster.boxes x.quorum x.clear x.roster.sized x.fitting };

    fn boxes(&self) -> usize {
        self.roster.boxes()
    }

    fn is_quorum(&self, set: BoxSet) -> bool {
        self.has_at_least(self.quorum, set)
    }
}

impl ClearView for Sizes {
    ghost clear = { λ x. at_least x.roster.boxes x.clear };

    ghost clear_lawful = { λ x. sizes_clear x.roster.boxes x.quorum x.clear x.fitting };

    fn is_clear(&self, set: BoxSet) -> bool {
        self.has_at_least(self.clear, set)
    }
}
