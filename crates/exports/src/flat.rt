// Setups, slips and faults as plain numbers.
ghost use Rattle.std.specs.Prelude.{◌≡◌};
ghost use Rattle.exports.specs.Flat.{flat as number_of, flat_dated as dated_number, flat_fault as fault_number, flat_slip as flat_of, setup_of};

use crate::put::Recast;
use agreement::slips::Slip;
use quorum::refusals::Fault;
use setup::dated::DatedVote;

// Where the higher of two numbers begins in one of 64 bits.
const HIGHER: u64 = 1 << 32;

// A slip. A setup or none is 0 for none, and else the setup's number plus 1; a dated vote has its phase above that.
#[repr(C)]
#[derive(Clone, Copy)]
pub struct FlatSlip {
    own: u64,
    pick: u64,
    say: u64,
    cast: u64,
    news: u64,
    held: u64,
    dated: u64,
}

fn flat(setup: Option<u32>) -> u64
    ensures { result ≡ number_of setup }
{
    match setup {
        None => 0,
        Some(v) => u64::from(v) + 1,
    }
}

fn flat_dated(vote: Option<DatedVote<u32>>) -> u64
    ensures { result ≡ dated_number vote }
{
    match vote {
        None => 0,
        Some((phase, v)) => u64::from(phase) * HIGHER + u64::from(v) + 1,
    }
}

impl Recast<FlatSlip> for Slip<u32> {
    ghost form = { flat_of };

    fn recast(&self) -> FlatSlip {
        FlatSlip {
            own: flat(Some(self.own)),
            pick: flat(self.pick),
            say: flat(self.say),
            cast: flat(self.cast),
            news: flat(self.news),
            held: flat(self.held),
            dated: flat_dated(self.dated),
        }
    }
}

impl Recast<u64> for Option<u32> {
    ghost form = { number_of };

    fn recast(&self) -> u64 {
        flat(*self)
    }
}

// A number that is too large is none.
impl Recast<Option<u32>> for u64 {
    ghost form = { setup_of };

    fn recast(&self) -> Option<u32> {
        match *self {
            0 => None,
            n => u32::try_from(n - 1).ok(),
        }
    }
}

// The refusal's number stands above the place.
pub(crate) fn flat_fault(fault: Fault) -> u64
    ensures { result ≡ fault_number fault }
{
    let place = u32::try_from(fault.place).unwrap_or(u32::MAX);
    u64::from(fault.refusal.number()) * HIGHER + u64::from(place)
}
