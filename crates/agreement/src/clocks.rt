// Which phase and beat of a run are due.
ghost use Rattle.std.specs.Prelude.{◌≡◌, ◌≤◌, not};
ghost use Rattle.quorum.specs.Refusals.{Answers, unless};
ghost use Rattle.agreement.specs.Calls.{advanced, beginning, closed};
ghost use Rattle.agreement.specs.Laws.{last};
ghost use Rattle.agreement.specs.declared.faults.RunFault.TheVariants.{Closed};

use crate::faults::RunFault;

#[derive(Clone, Copy, Debug, PartialEq)]
pub struct Clock {
    // 0 to 65,535, and 65,536 once the last phase is finished: no `Option`, since phases are counted on, as the definitions count them
    pub phase: u32,
    pub beat: u8,
}

impl Clock {
    // Beat 0 of phase 0.
    pub(crate) fn beginning() -> Clock
        ensures { result ≡ beginning }
    {
        Clock { phase: 0, beat: 0 }
    }

    // Whether the last phase is finished.
    pub fn is_closed(self) -> bool
        ensures { result ≡ closed self }
    {
        self.phase > 65535
    }

    // The phase, unless the last one is finished.
    pub(crate) fn open_phase(self) -> Result<u16, RunFault>
        ensures { Answers (unless (not (closed self)) Closed) (λ k. k ≡ self.phase) result }
    {
        u16::try_from(self.phase).map_err(|_| RunFault::Closed)
    }

    // The beat after this one, in phases of so many beats.
    pub(crate) fn advanced(self, beats: u8) -> Clock
        requires { self.phase ≤ last }
        ensures { result ≡ advanced beats self }
    {
        if self.beat < beats.saturating_sub(1) {
            Clock {
                phase: self.phase,
                beat: self.beat + 1,
            }
        } else {
            Clock {
                phase: self.phase + 1,
                beat: 0,
            }
        }
    }
}
