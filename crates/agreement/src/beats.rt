// The beat that is due: whether it may be taken, and how it is.
ghost use Rattle.std.specs.Prelude.{IfOk};
ghost use Rattle.quorum.specs.Refusals.{Answers};
ghost use Rattle.agreement.specs.Inside.{BeatsLowest, GoesOn, no_beat_lowest};

use crate::checks::have_lengths;
use crate::clocks::Clock;
use crate::faults::RunFault;
use crate::hearing::Given;
use crate::procedures::Procedure;
use crate::slips::Slip;
use quorum::rules::Rule;
use quorum::sets::BoxSet;
use setup::orders::Setup;

// What the beat is given, or why it is declined.
fn admit<'a, V: Setup, P: Procedure<V>>(
    procedure: &'a P,
    clock: Clock,
    table: usize,
    sheet: usize,
    heard: &'a [BoxSet],
) -> Result<Given<'a, P>, RunFault>
    ensures value { Answers (no_beat_lowest (P.Procedure.meaning procedure.now) clock table sheet heard.now) (λ _. Unit {0}) result }
    ensures fitting { IfOk result (GoesOn (P.Procedure.meaning procedure.now) procedure.now clock table sheet heard.now) }
{
    let boxes = procedure.rule().boxes();
    have_lengths(boxes, table, sheet, heard.len())?;
    let given = Given {
        procedure,
        boxes,
        phase: clock.open_phase()?,
        beat: clock.beat,
        heard,
    };
    given.may_go_on()?;
    Ok(given)
}

// Takes the beat and moves the clock on, or declines it.
// Table and sheet stay two lists, as the caller has them: a struct would be made at each call to be taken apart here.
#[tactic(auto, using(quorum::proofs::Refused::declined_does))]
pub(crate) fn close<V: Setup, P: Procedure<V>>(
    procedure: &P,
    clock: &mut Clock,
    table: &mut [Slip<V>],
    sheet: &mut [Slip<V>],
    heard: &[BoxSet],
) -> Result<(), RunFault>
    ensures { BeatsLowest (P.Procedure.meaning procedure.now) clock.old table.old sheet.old heard.now result clock.new table.new sheet.new }
{
    let given = admit(procedure, *clock, table.len(), sheet.len(), heard)?;
    given.turn_over(table, sheet);
    *clock = clock.advanced(procedure.beats());
    Ok(())
}
