// The calls: what they are given and what they tell is numbers and slices.
ghost use Rattle.std.specs.Prelude.{◌≡◌, ◌≤◌, ◌++◌, length, take, true};
ghost use Rattle.office.specs.Answers.{answer};
ghost use Rattle.office.specs.Printed.{printed};
ghost use Rattle.exports.specs.Kept.{BookTold};
ghost use Rattle.exports.specs.Rooms.{text_of};
ghost use Rattle.exports.specs.Told.{RunTold, rule_told, run_number};

use crate::books::{Rows, keep};
use crate::flat::{FlatSlip, flat_fault};
use crate::lent::{ROOM, blank, blank_entries, read_entries, tell};
use crate::numbers::RuleNumbers;
use crate::put::put;
use crate::room::Room;
use crate::rules::rule_asked;
use crate::runs::{Shift, run_asked};
use agreement::faults::RunFault;
use office::printouts::Printout;
use quorum::refusals::Fault;
use quorum::rules::{ClearView, Rule};
use std::fmt::Write;

// What the rule answers of a set, 1 for a quorum and 2 for a clear one, added; or the fault of its making, as a number.
#[unsafe(no_mangle)]
pub extern "C" fn zotymoi_rule(rule: &RuleNumbers, set: u32) -> u64
    ensures { result ≡ rule_told rule.now set }
{
    match rule_asked(rule) {
        Ok(rule) => u64::from(rule.is_quorum(set)) + 2 * u64::from(rule.is_clear(set)),
        Err(fault) => flat_fault(Fault::from(fault)),
    }
}

// The fault of the last call, as a number; 0 where it was taken.
fn run_fault(answer: Result<(), RunFault>) -> u64
    ensures { result ≡ run_number answer }
{
    match answer {
        Ok(()) => 0,
        Err(fault) => flat_fault(Fault::from(fault)),
    }
}

// A run over a rule, opened on the proposals and worked by the beats of `heard`, `each` heard sets to a beat. As many slips of the
// table and the sheet as are lent are written afterwards. Procedure 0 is Fast, 1 Observing, 3 the standard licence, and every other number
// Latest. Tells the fault of the last call, as a number; 0 where it was taken.
#[unsafe(no_mangle)]
pub extern "C" fn zotymoi_run(
    rule: &RuleNumbers,
    procedure: u32,
    proposals: &[u32],
    each: usize,
    heard: &[u32],
    table: &mut [FlatSlip],
    sheet: &mut [FlatSlip],
) -> u64
    ensures { RunTold rule.now procedure proposals.now each heard.now table.old sheet.old result table.new sheet.new }
{
    let shift = Shift {
        proposals,
        each,
        heard,
    };
    let (n, m) = (table.len().min(ROOM), sheet.len().min(ROOM));
    let mut slips = blank();
    let mut former = blank();
    let answer = run_asked(rule, procedure, shift, &mut slips[..n], &mut former[..m]);
    tell(&slips[..n], table);
    tell(&former[..m], sheet);
    run_fault(answer)
}

// A book of this number of boxes in the list, and rows of votes and decisions that are entered into it under a rule. The list is written afterwards.
// A setup or none is a number as in a slip. Tells the fault of the last row, as a number; 0 where it was taken.
#[unsafe(no_mangle)]
pub extern "C" fn zotymoi_book(
    boxes: usize,
    rule: &RuleNumbers,
    list: &mut [u64],
    votes: &[u64],
    each_votes: usize,
    decisions: &[u64],
    each_decisions: usize,
) -> u64
    ensures { BookTold boxes rule.now list.old votes.now each_votes decisions.now each_decisions result list.new }
{
    let mut entries = blank_entries();
    let mut voted = blank_entries();
    let mut decided = blank_entries();
    let n = read_entries(list, &mut entries);
    let m = read_entries(votes, &mut voted);
    let l = read_entries(decisions, &mut decided);
    let rows = Rows {
        votes: &voted[..m],
        each_votes,
        decisions: &decided[..l],
        each_decisions,
    };
    let answer = keep(boxes, rule, rows, &mut entries[..n]);
    put(&entries[..n], &mut list[..n]);
    match answer {
        Ok(()) => 0,
        Err(fault) => flat_fault(fault),
    }
}

// Prints the answer to the text into the room.
#[tactic(auto, using(crate::proofs::Writing::writes_text, crate::proofs::Writing::writes_lent))]
fn fill(text: &[u8], room: &mut Room<'_>) -> bool
    ensures text { result ≡ true → text_of room.new ≡ text_of room.old ++ printed (answer text.now) }
    ensures lent { result ≡ true → room.new.bytes.ghost_name ≡ room.old.bytes.ghost_name }
{
    write!(room, "{}", Printout::new(text)).is_ok()
}

// Writes what the seat prints for the text, where there is room enough, and says whether there is and how many bytes are written.
#[unsafe(no_mangle)]
pub extern "C" fn zotymoi_seat(text: &[u8], room: &mut [u8], written: &mut usize) -> bool
    ensures told { result ≡ true → take written.new room.new ≡ printed (answer text.now) }
    ensures within { written.new ≤ length room.new }
{
    let most = room.len();
    let mut room = Room::new(room);
    let fits = fill(text, &mut room);
    *written = room.written().min(most);
    fits
}
