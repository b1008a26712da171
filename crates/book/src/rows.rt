// A row: what each box has, a setup or none, and the boxes that have a setup.
ghost use Rattle.std.specs.Prelude.{◌≡◌, ◌≤◌, length};
ghost use Rattle.setup.specs.Rows.{boxes_with as boxes_that_have, entry as entry_of};

use quorum::rules::Rule;
use quorum::sets::{BoxSet, all_below};
use setup::having::boxes_with;
use setup::orders::Setup;
use setup::search::Optional;

// The entries of as many boxes at most as a set can have, 32.
#[derive(Drop)]
pub(crate) struct Row<'a, V> {
    entries: &'a [Option<V>],
    ghost few: { length entries.now ≤ 32 },
}

impl<'a, V: Setup> Row<'a, V> {
    pub(crate) fn new(entries: &'a [Option<V>]) -> Row<'a, V>
        requires { length entries.now ≤ 32 }
        ensures { result.entries.now ≡ entries.now }
    {
        Row { entries }
    }

    // What box `i` has: none past the end.
    pub(crate) fn entry(&self, i: usize) -> Option<V>
        ensures { result ≡ entry_of self.now.entries.now i }
    {
        self.entries.get(i).copied().flatten()
    }

    // The set of the boxes that have `v`.
    #[tactic(auto, using(crate::proofs::Sameness::all_sought))]
    fn voters(&self, v: V) -> BoxSet
        ensures { result ≡ boxes_that_have V.Setup.before v self.now.entries.now }
    {
        boxes_with(&Optional, self.entries, all_below(self.entries.len()), v)
    }

    // Whether the voters of `v` are a quorum.
    pub(crate) fn elects<R: Rule>(&self, rule: &R, v: V) -> bool
        ensures { result ≡ (R.Rule.family rule.now).quorum (boxes_that_have V.Setup.before v self.now.entries.now) }
    {
        rule.is_quorum(self.voters(v))
    }
}
