// A run at work on the setups of a text.
ghost use Rattle.std.specs.Prelude.{◌≡◌, ◌≤◌, length};
ghost use Rattle.office.specs.Named.{meant};

use crate::named_procedure::NamedProcedure;
use crate::signs::Sign;
use agreement::runs::Run;
use agreement::slips::Slip;
use quorum::sets::MAX_BOXES;
use shift::list::Numbers;

mod methods;

// How many slips there is room for: one for each box of the largest roster.
const ROOM: usize = MAX_BOXES;

// Table and sheet lie here, and nothing is allocated; the slips of the roster come first.
#[derive(Drop)]
pub(crate) struct Work {
    run: Run<u32, NamedProcedure>,
    boxes: usize,
    table: [Slip<u32>; ROOM],
    sheet: [Slip<u32>; ROOM],
    // the heard sets of the last line
    heard: Numbers,
    // what the last beat shows, if anything
    sign: Option<Sign>,
    ghost roster: { (meant run.procedure).rule.boxes ≡ boxes },
    ghost fits: { boxes ≤ 32 },
    ghost table_room: { length table ≡ 32 },
    ghost sheet_room: { length sheet ≡ 32 },
}
