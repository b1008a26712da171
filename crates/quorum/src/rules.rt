// What a rule answers, what it means, and the laws that it keeps.
ghost use Rattle.std.specs.Prelude.{◌≡◌, ℕ, Bool};
ghost use Rattle.quorum.specs.Rules.{Family, Lawful, ClearLawful};

use crate::sets::BoxSet;

// A roster and a family of sets of it, the quorums.
pub trait Rule {
    ghost family: { Self → Family };

    // How many boxes the roster has.
    fn boxes(&self) -> usize
        ensures { result ≡ (family self.now).boxes };

    // Whether the set is a quorum.
    fn is_quorum(&self, set: BoxSet) -> bool
        ensures { result ≡ (family self.now).quorum set };

    ghost lawful: { (rule : Self) → Lawful (family rule) };
}

// A rule that also says which sets are clear: one shares a box with any two quorums at once.
pub trait ClearView: Rule {
    ghost clear: { Self → ℕ → Bool };

    // Whether the set is clear.
    fn is_clear(&self, set: BoxSet) -> bool
        ensures { result ≡ clear self.now set };

    ghost clear_lawful: { (rule : Self) → ClearLawful (Self.Rule.family rule) (clear rule) };
}
