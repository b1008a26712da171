// What a run declines with.
ghost use Rattle.std.specs.Prelude.{◌≡◌};
ghost use Rattle.agreement.specs.Faults.{of_run};
ghost use Rattle.agreement.specs.declared.faults.RunFault.TheVariants.{Rule};

use quorum::refusals::{Fault, Layer, Refusal, RuleFault};

#[derive(Clone, Copy, Debug, PartialEq)]
pub enum RunFault {
    // where the call makes the rule itself: the fault that the rule's making found
    Rule(RuleFault),
    NoBox,
    // the rank of the list in the call, from 1, as reports give it
    Length(usize),
    Closed,
    // the box whose heard set it is
    Stranger(usize),
    Wait(usize),
}

impl From<RuleFault> for RunFault {
    ghost from_gives = { λ fault r. r ≡ Rule fault };

    fn from(fault: RuleFault) -> RunFault {
        RunFault::Rule(fault)
    }
}

impl From<RunFault> for Fault {
    ghost from_gives = { λ fault r. r ≡ of_run fault };

    fn from(fault: RunFault) -> Fault {
        let (refusal, place) = match fault {
            RunFault::Rule(fault) => return Fault::from(fault),
            RunFault::NoBox => (Refusal::NoBox, 0),
            RunFault::Length(rank) => (Refusal::Length, rank),
            RunFault::Closed => (Refusal::Closed, 0),
            RunFault::Stranger(i) => (Refusal::Stranger, i),
            RunFault::Wait(i) => (Refusal::Wait, i),
        };
        Fault {
            refusal,
            layer: Layer::Run,
            place,
        }
    }
}
