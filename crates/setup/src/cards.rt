// The setup card: where a setup stands in the drive.
ghost use Rattle.setup.specs.Kinds.{card_before, card_key};
ghost use Rattle.setup.specs.Lawful.{keyed_ordered, lexical_ordered, signed_ordered, unsigned_ordered};

use crate::orders::Setup;

#[derive(Clone, Copy, Debug, PartialEq)]
pub struct Card {
    pub ring: u32,
    // in millimetres
    pub chainage: i32,
    pub station: u8,
}

impl Setup for Card {
    ghost before = { card_before };

    ghost ordered = { keyed_ordered card_key (λ a b e i. record { ring = (e i).0; chainage = (e i).1.0; station = (e i).1.1 })
        (lexical_ordered unsigned_ordered (lexical_ordered signed_ordered unsigned_ordered)) };

    // By the key that the trade goes by, in its order, and not by how the fields happen to stand.
    fn comes_before(&self, other: &Card) -> bool {
        (self.ring, self.chainage, self.station) < (other.ring, other.chainage, other.station)
    }
}
