// The dated vote: a setup and the phase in which it was voted for, over every kind of setup.
ghost use Rattle.setup.specs.Kinds.{dated_before};
ghost use Rattle.setup.specs.Lawful.{backwards_ordered, lexical_ordered, unsigned_ordered};

use crate::orders::Setup;

pub type DatedVote<V> = (u16, V);

// No derive: the greater phase comes first, and setups compare by the order of their kind.
impl<V: Setup> Setup for (u16, V) {
    ghost before = { dated_before V.Setup.before };

    ghost ordered = { lexical_ordered (backwards_ordered unsigned_ordered) V.Setup.ordered };

    fn comes_before(&self, other: &(u16, V)) -> bool {
        self.0 > other.0 || self.0 == other.0 && self.1.comes_before(&other.1)
    }
}
