// What a book checks before it takes a row, and how the row goes into the list.
ghost use Rattle.std.specs.Prelude.{◌≡◌, ◌+◌, ◌*◌, ◌≤◌, length, OnOk};
ghost use Rattle.quorum.specs.Refusals.{Answers};
ghost use Rattle.book.specs.Entering.{declined, Ready};
ghost use Rattle.book.specs.Keeping.{read};
ghost use Rattle.book.specs.Pages.{extended, kept};

use crate::faults::BookFault;
use crate::guards::Round;
use crate::rows::Row;
use crate::written::Written;
use quorum::rules::Rule;
use setup::orders::Setup;

// Whether the row may be entered after those that are written, or why not.
pub(crate) fn admit<V: Setup, R: Rule>(
    rule: &R,
    earlier: &Written<V>,
    votes: &[Option<V>],
    decisions: &[Option<V>],
) -> Result<(), BookFault>
    ensures value { Answers (declined (R.Rule.family rule.now) V.Setup.before (read earlier.now) votes.now decisions.now) (λ _. Unit {0}) result }
    ensures fitting { OnOk result (Ready (R.Rule.family rule.now) (read earlier.now) votes.now decisions.now) }
{
    let boxes = earlier.boxes;
    if rule.boxes() != boxes {
        return Err(BookFault::OtherRoster);
    }
    if votes.len() != boxes {
        return Err(BookFault::Length(1));
    }
    if decisions.len() != boxes {
        return Err(BookFault::Length(2));
    }
    if earlier.rows >= earlier.list.len() / boxes {
        return Err(BookFault::NoRow);
    }
    let round = Round {
        rule,
        earlier,
        votes: Row::new(votes),
    };
    if let Some(i) = round.lowest_defector() {
        return Err(BookFault::Defection(i));
    }
    if let Some(i) = round.lowest_unbacked(&Row::new(decisions)) {
        return Err(BookFault::Unbacked(i));
    }
    Ok(())
}

// Puts the row into the list as row `r`. The book's method hands the list over, with what places the row.
pub(crate) fn put<V: Setup>(list: &mut [Option<V>], boxes: usize, r: usize, row: &[Option<V>])
    requires { (length row.now ≡ boxes) × (r * boxes + boxes ≤ length list.old) }
    ensures { list.new ≡ (extended (kept boxes list.old r) row.now).list }
{
    let at = r * boxes;
    list[at..at + boxes].copy_from_slice(row);
}
