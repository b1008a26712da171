// A book that is opened in a list, and rows that are entered into it in turn.
ghost use Rattle.std.specs.Prelude.{◌≡◌, Ok};
ghost use Rattle.book.specs.Keeping.{pages};
ghost use Rattle.exports.specs.InTurn.{InTurn};
ghost use Rattle.exports.specs.Kept.{Keeps, RowOf, rows as how_many};
ghost use Rattle.quorum.specs.Chosen.{family_of};
ghost use Rattle.exports.specs.Rowing.{as_rows};

use crate::numbers::RuleNumbers;
use crate::parts::{part, parts};
use crate::rules::rule_asked;
use book::books::Book;
use book::faults::BookFault;
use quorum::chosen::ChosenRule;
use quorum::majority::Majority;
use quorum::refusals::Fault;

// Votes and decisions, and how many of each make a row.
#[derive(Clone, Copy)]
pub(crate) struct Rows<'a> {
    pub(crate) votes: &'a [Option<u32>],
    pub(crate) each_votes: usize,
    pub(crate) decisions: &'a [Option<u32>],
    pub(crate) each_decisions: usize,
}

// Enters the rows, as many as votes and decisions both have whole. Answers what came of the last.
fn enter(book: &mut Book<'_, u32>, rule: &ChosenRule, rows: Rows<'_>) -> Result<(), BookFault>
    ensures value { InTurn (RowOf (family_of rule.now) (as_rows rows.entry)) (record { answer = Ok tt; pages = pages book.old }) (how_many (as_rows rows.entry)) (record { answer = result; pages = pages book.new }) }
    ensures lent { book.new.list.ghost_name ≡ book.old.list.ghost_name }
{
    let votes = parts(rows.each_votes, rows.votes);
    let decisions = parts(rows.each_decisions, rows.decisions);
    let mut last = Ok(());
    for k in 0..votes.min(decisions) {
        last = book.enter(
            rule,
            part(rows.each_votes, rows.votes, k),
            part(rows.each_decisions, rows.decisions, k),
        );
    }
    last
}

// A book of this number of boxes in the list, with the rows entered under a rule.
pub(crate) fn keep(
    boxes: usize,
    rule: &RuleNumbers,
    rows: Rows<'_>,
    list: &mut [Option<u32>],
) -> Result<(), Fault>
    ensures { Keeps rule.now boxes (as_rows rows.entry) list.old result list.new }
{
    let roster = Majority::new(boxes)?;
    let rule = rule_asked(rule)?;
    let mut book = Book::new(&roster, list);
    enter(&mut book, &rule, rows)?;
    Ok(())
}
