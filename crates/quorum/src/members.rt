// The boxes of a set, from the lowest up.
ghost use Rattle.std.specs.Prelude.{◌≡◌};
ghost use Rattle.std.specs.Iterator.{at_most};
ghost use Rattle.quorum.specs.Walking.{NextBox};

use crate::sets::BoxSet;

// The boxes that are left.
#[derive(Clone, Copy)]
pub struct Members {
    left: BoxSet,
}

// The boxes of the set.
pub fn each(set: BoxSet) -> Members
    ensures { result.left ≡ set }
{
    Members { left: set }
}

impl Members {
    // The boxes that are left, as a set.
    pub fn left(&self) -> BoxSet
        ensures { result ≡ self.now.left }
    {
        self.left
    }
}

impl Iterator for Members {
    type Item = usize;

    ghost next_gives = { NextBox };

    ghost remaining = { λ m. at_most m.left };

    fn next(&mut self) -> Option<usize> {
        if self.left == 0 {
            return None;
        }
        let i = self.left.trailing_zeros();
        self.left &= self.left - 1;
        Some(i as usize)
    }
}
