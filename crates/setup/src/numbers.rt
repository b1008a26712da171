// The setup number: an unsigned number, in order of size.
ghost use Rattle.setup.specs.Kinds.{number_before};
ghost use Rattle.setup.specs.Lawful.{unsigned_ordered};

use crate::orders::Setup;

impl Setup for u32 {
    ghost before = { number_before };

    ghost ordered = { unsigned_ordered };

    fn comes_before(&self, other: &u32) -> bool {
        *self < *other
    }
}
