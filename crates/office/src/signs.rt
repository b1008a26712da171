// What a beat shows, before the rows of a phase are looked at.
ghost use Rattle.std.specs.Prelude.{◌≡◌};
ghost use Rattle.office.specs.Events.{seen, shown_as};

use crate::events::{Event, Phase};
use crate::rows::{Column, Row};
use agreement::slips::Slip;
use quorum::refusals::Refusal;

#[derive(Clone, Copy)]
pub(crate) enum Sign {
    // the run declined the beat, and why
    Declined(Refusal),
    // the phase of this number has ended
    Ended(u32),
}

impl Sign {
    // What it shows where the boxes' slips are those of the table.
    pub(crate) fn event(self, table: &[Slip<u32>]) -> Event<'_>
        ensures { shown_as result ≡ seen self table.now }
    {
        match self {
            Sign::Declined(refusal) => Event::Declined(refusal),
            Sign::Ended(number) => Event::Phase(Phase {
                number,
                votes: Row::new(Column::Cast, table),
                held: Row::new(Column::Held, table),
            }),
        }
    }
}
