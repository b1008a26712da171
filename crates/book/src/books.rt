// A book: the rows entered so far, in a list that its owner lends.
ghost use Rattle.std.specs.Prelude.{◌≡◌, ◌*◌, ◌≤◌, length, OnOk};
ghost use Rattle.quorum.specs.Refusals.{Answers};
ghost use Rattle.quorum.specs.Rules.{Roster};

use crate::entering::{admit, put};
use crate::faults::BookFault;
use crate::written::Written;
use quorum::rules::Rule;
use setup::orders::Setup;

// A count beside a lent list, and no `Vec`: a book allocates nothing.
#[derive(Drop)]
pub struct Book<'a, V> {
    list: &'a mut [Option<V>],
    boxes: usize,
    written: usize,
    ghost sized: { Roster boxes },
    ghost kept: { written * boxes ≤ length list.now },
}

impl<'a, V: Setup> Book<'a, V> {
    ghost use Rattle.book.specs.Entering.{declined, Enters, NamesFirst, Ready, Votes};
    ghost use Rattle.book.specs.Keeping.{pages};
    ghost use Rattle.book.specs.Pages.{fresh, rows as rows_in};

    // A book of the rule's roster, with no row yet.
    pub fn new<R: Rule>(rule: &R, list: &'a mut [Option<V>]) -> Book<'a, V>
        ensures value { pages result ≡ fresh (R.Rule.family rule.now).boxes list.old }
        ensures lent { result.list.ghost_name ≡ list.entry.ghost_name }
    {
        Book {
            list,
            boxes: rule.boxes(),
            written: 0,
        }
    }

    // How many rows the list has room for.
    pub fn rows(&self) -> usize
        ensures { result ≡ rows_in (pages self.now) }
    {
        self.list.len() / self.boxes
    }

    // How many rows are written.
    pub fn written(&self) -> usize
        ensures { result ≡ (pages self.now).written }
    {
        self.written
    }

    // Whether the row may be entered, or why not.
    fn check<R: Rule>(
        &self,
        rule: &R,
        votes: &[Option<V>],
        decisions: &[Option<V>],
    ) -> Result<(), BookFault>
        ensures value { Answers (declined (R.Rule.family rule.now) V.Setup.before (pages self.now) votes.now decisions.now) (λ _. Unit {0}) result }
        ensures fitting { OnOk result (Ready (R.Rule.family rule.now) (pages self.now) votes.now decisions.now) }
        ensures voting { Votes (R.Rule.family rule.now) (pages self.now) votes.now decisions.now result }
        ensures first { NamesFirst (R.Rule.family rule.now) V.Setup.before (pages self.now) votes.now decisions.now result }
    {
        let earlier = Written {
            list: self.list,
            boxes: self.boxes,
            rows: self.written,
        };
        admit(rule, &earlier, votes, decisions)
    }

    // Enters a row of votes, with the decisions that it backs: the two guards are tested first.
    // Votes and decisions stay two lists, as the caller has them: a struct would be made here to be taken apart in `admit`.
    pub fn enter<R: Rule>(
        &mut self,
        rule: &R,
        votes: &[Option<V>],
        decisions: &[Option<V>],
    ) -> Result<(), BookFault>
        ensures value { Enters (R.Rule.family rule.now) V.Setup.before (pages self.old) votes.now decisions.now result (pages self.new) }
        ensures voting { Votes (R.Rule.family rule.now) (pages self.old) votes.now decisions.now result }
        ensures first { NamesFirst (R.Rule.family rule.now) V.Setup.before (pages self.old) votes.now decisions.now result }
        ensures lent { self.new.list.ghost_name ≡ self.old.list.ghost_name }
    {
        self.check(rule, votes, decisions)?;
        put(self.list, self.boxes, self.written, votes);
        self.written += 1;
        Ok(())
    }
}
