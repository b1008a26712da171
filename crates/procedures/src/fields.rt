// The fields of a slip that the boxes send.
ghost use Rattle.procedures.specs.Received.{dated, own, pick, say};

use agreement::slips::Slip;
use setup::dated::DatedVote;
use setup::orders::Setup;
use setup::search::Field;

// What a box stands for.
#[derive(Clone, Copy)]
pub struct Own;

impl<V: Setup> Field<Slip<V>, V> for Own {
    ghost reads = { λ _ slip. own slip };

    fn read(&self, slip: &Slip<V>) -> Option<V> {
        Some(slip.own)
    }
}

// What it would have the others vote for.
#[derive(Clone, Copy)]
pub struct Pick;

impl<V: Setup> Field<Slip<V>, V> for Pick {
    ghost reads = { λ _ slip. pick slip };

    fn read(&self, slip: &Slip<V>) -> Option<V> {
        slip.pick
    }
}

// What it is ready to vote for.
#[derive(Clone, Copy)]
pub struct Say;

impl<V: Setup> Field<Slip<V>, V> for Say {
    ghost reads = { λ _ slip. say slip };

    fn read(&self, slip: &Slip<V>) -> Option<V> {
        slip.say
    }
}

// The last vote that it was ready to cast, with its phase.
#[derive(Clone, Copy)]
pub struct Dated;

impl<V: Setup> Field<Slip<V>, DatedVote<V>> for Dated {
    ghost reads = { λ _ slip. dated slip };

    fn read(&self, slip: &Slip<V>) -> Option<DatedVote<V>> {
        slip.dated
    }
}
