// The two guards of a row, box by box, and the lowest box that breaks one.
ghost use Rattle.std.specs.Prelude.{◌≡◌, ◌<◌};
ghost use Rattle.quorum.specs.Boxes.{lowest};

use crate::rows::Row;
use crate::written::Written;
use quorum::rules::Rule;
use setup::having::same;
use setup::orders::Setup;

// The votes of a row that is to be entered, the rows that are written, and the rule that the row is entered under.
#[derive(Drop)]
pub(crate) struct Round<'a, V, R> {
    pub(crate) rule: &'a R,
    pub(crate) earlier: &'a Written<'a, V>,
    pub(crate) votes: Row<'a, V>,
}

impl<'a, V: Setup, R: Rule> Round<'a, V, R> {
    ghost use Rattle.book.specs.Keeping.{read};
    ghost use Rattle.book.specs.Pages.{defects, lacks, turns_at, unbacked};

    // Whether box `i` turns from a quorum of row `r`.
    fn turns(&self, i: usize, r: usize) -> bool
        requires { r < self.now.earlier.now.rows }
        ensures { result ≡ turns_at (R.Rule.family self.now.rule.now) V.Setup.before (read self.now.earlier.now) self.now.votes.entries.now i r }
    {
        let row = self.earlier.row(r);
        matches!((row.entry(i), self.votes.entry(i)), (Some(v), Some(w)) if !same(v, w) && row.elects(self.rule, v))
    }

    // Whether box `i` turns from a quorum of some written row.
    fn defects(&self, i: usize) -> bool
        ensures { result ≡ defects (R.Rule.family self.now.rule.now) V.Setup.before (read self.now.earlier.now) self.now.votes.entries.now i }
    {
        (0..self.earlier.rows).any(|r| self.turns(i, r))
    }

    // The lowest box that turns from a quorum of a written row.
    pub(crate) fn lowest_defector(&self) -> Option<usize>
        ensures { result ≡ lowest (defects (R.Rule.family self.now.rule.now) V.Setup.before (read self.now.earlier.now) self.now.votes.entries.now) self.now.earlier.now.boxes }
    {
        (0..self.earlier.boxes).find(|i| self.defects(*i))
    }

    // Whether the voters of a decision are no quorum.
    fn lacks(&self, decision: Option<V>) -> bool
        ensures { result ≡ lacks (R.Rule.family self.now.rule.now) V.Setup.before self.now.votes.entries.now decision }
    {
        matches!(decision, Some(w) if !self.votes.elects(self.rule, w))
    }

    // The lowest box whose decision lacks a quorum of votes.
    pub(crate) fn lowest_unbacked(&self, decisions: &Row<V>) -> Option<usize>
        ensures { result ≡ lowest (unbacked (R.Rule.family self.now.rule.now) V.Setup.before self.now.votes.entries.now decisions.now.entries.now) self.now.earlier.now.boxes }
    {
        (0..self.earlier.boxes).find(|i| self.lacks(decisions.entry(*i)))
    }
}
