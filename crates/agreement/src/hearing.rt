// What a beat is given, and what it declines of that: the lowest box that heard a stranger, and the lowest that must wait.
ghost use Rattle.std.specs.Prelude.{◌≡◌, length, slice_index};
ghost use Rattle.std.specs.Option.{option_map};
ghost use Rattle.quorum.specs.Boxes.{lowest as lowest_of};
ghost use Rattle.quorum.specs.Refusals.{Answers, either};
ghost use Rattle.agreement.specs.Calls.{estranged, waits};
ghost use Rattle.agreement.specs.declared.faults.RunFault.TheVariants.{Stranger, Wait};

use crate::faults::RunFault;
use crate::procedures::Procedure;
use quorum::sets::{BoxSet, fits};
use setup::orders::Setup;

// A beat as it is given: the roster, the phase and beat that are due, and what each box heard.
#[derive(Drop)]
pub(crate) struct Given<'a, P> {
    pub(crate) procedure: &'a P,
    pub(crate) boxes: usize,
    pub(crate) phase: u16,
    pub(crate) beat: u8,
    pub(crate) heard: &'a [BoxSet],
    ghost each: { length heard.now ≡ boxes },
}

impl<'a, P> Given<'a, P> {
    // The heard set of box `i`; past the end of the list, nobody.
    fn heard_by(&self, i: usize) -> BoxSet
        ensures { result ≡ slice_index self.now.heard.now i }
    {
        self.heard.get(i).copied().unwrap_or(0)
    }

    // Whether the heard set of box `i` has a stranger.
    fn has_stranger(&self, i: usize) -> bool
        ensures { result ≡ estranged self.now.boxes self.now.heard.now i }
    {
        !fits(self.heard_by(i), self.boxes)
    }

    // Whether box `i` must wait.
    fn must_wait<V: Setup>(&self, i: usize) -> bool
    where
        P: Procedure<V>,
        ensures { result ≡ waits (P.Procedure.meaning self.now.procedure.now) self.now.phase self.now.beat self.now.heard.now i }
    {
        !self
            .procedure
            .admits(self.phase, self.beat, self.heard_by(i))
    }

    // The lowest box whose heard set has a stranger.
    fn stranger(&self) -> Option<usize>
        ensures { result ≡ lowest_of (estranged self.now.boxes self.now.heard.now) self.now.boxes }
    {
        (0..self.boxes).find(|i| self.has_stranger(*i))
    }

    // The lowest box that must wait.
    fn waiting<V: Setup>(&self) -> Option<usize>
    where
        P: Procedure<V>,
        ensures { result ≡ lowest_of (waits (P.Procedure.meaning self.now.procedure.now) self.now.phase self.now.beat self.now.heard.now) self.now.boxes }
    {
        (0..self.boxes).find(|i| self.must_wait(*i))
    }

    // Whether every box can go on with what it heard, or why not.
    pub(crate) fn may_go_on<V: Setup>(&self) -> Result<(), RunFault>
    where
        P: Procedure<V>,
        ensures { Answers (either (option_map Stranger (lowest_of (estranged self.now.boxes self.now.heard.now) self.now.boxes)) (option_map Wait (lowest_of (waits (P.Procedure.meaning self.now.procedure.now) self.now.phase self.now.beat self.now.heard.now) self.now.boxes))) (λ _. Unit {0}) result }
    {
        if let Some(i) = self.stranger() {
            return Err(RunFault::Stranger(i));
        }
        if let Some(i) = self.waiting() {
            return Err(RunFault::Wait(i));
        }
        Ok(())
    }
}
