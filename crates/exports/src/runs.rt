// A run that is opened, and then worked by beats in turn.
ghost use Rattle.quorum.specs.Making.{no_roster};
ghost use Rattle.setup.specs.Kinds.{number_before};
ghost use Rattle.procedures.specs.Licence.{licensed};
ghost use Rattle.exports.specs.Asked.{no_procedure, over, procedure as procedure_by};
ghost use Rattle.exports.specs.Runs.{Runs, RunsAsked, Works};

use crate::numbers::RuleNumbers;
use crate::parts::{part, parts};
use crate::rules::rule_asked;
use agreement::faults::RunFault;
use agreement::procedures::Procedure;
use agreement::runs::Run;
use agreement::slips::Slip;
use procedures::fast::Fast;
use procedures::latest::Latest;
use procedures::licence;
use procedures::observing::Observing;
use quorum::chosen::ChosenRule;
use quorum::rules::ClearView;
use quorum::sets::BoxSet;

// What a run is opened on, and the beats that it is worked by: `each` heard sets to a beat, as many beats as are whole.
#[derive(Clone, Copy)]
pub(crate) struct Shift<'a> {
    pub(crate) proposals: &'a [u32],
    pub(crate) each: usize,
    pub(crate) heard: &'a [BoxSet],
}

// Works an opened run by the beats, and answers what came of the last.
fn work<P: Procedure<u32> + Drop>(
    mut run: Run<u32, P>,
    shift: Shift<'_>,
    table: &mut [Slip<u32>],
    sheet: &mut [Slip<u32>],
) -> Result<(), RunFault>
    ensures { Works (P.Procedure.meaning run.procedure) shift.entry.each shift.entry.heard.now run.clock table.old sheet.old result table.new sheet.new }
{
    let mut last = Ok(());
    for k in 0..parts(shift.each, shift.heard) {
        last = run.beat(table, sheet, part(shift.each, shift.heard, k));
    }
    last
}

// Opens a run of the procedure, and works it.
#[tactic(auto, using(crate::proofs::Steps::opened_runs))]
fn run<P: Procedure<u32> + Drop>(
    procedure: P,
    shift: Shift<'_>,
    table: &mut [Slip<u32>],
    sheet: &mut [Slip<u32>],
) -> Result<(), RunFault>
    ensures { Runs (P.Procedure.meaning procedure) shift.entry.proposals.now shift.entry.each shift.entry.heard.now table.old sheet.old result table.new sheet.new }
{
    let run = Run::open(procedure, shift.proposals, table)?;
    work(run, shift, table, sheet)
}

// Opens the standard licence of this number of boxes, and works it.
fn run_licence(
    boxes: usize,
    shift: Shift<'_>,
    table: &mut [Slip<u32>],
    sheet: &mut [Slip<u32>],
) -> Result<(), RunFault>
    ensures { RunsAsked (no_roster boxes) (licensed number_before boxes) shift.entry.proposals.now shift.entry.each shift.entry.heard.now table.old sheet.old result table.new sheet.new }
{
    let run = licence::open(boxes, shift.proposals, table)?;
    work(run, shift, table, sheet)
}

// A run of the procedure that is asked for over the rule. Each rule has code of its own.
fn run_over<R: ClearView + Copy + Drop>(
    rule: R,
    procedure: u32,
    shift: Shift<'_>,
    table: &mut [Slip<u32>],
    sheet: &mut [Slip<u32>],
) -> Result<(), RunFault>
    ensures { Runs (over procedure (R.Rule.family rule) (R.ClearView.clear rule)) shift.entry.proposals.now shift.entry.each shift.entry.heard.now table.old sheet.old result table.new sheet.new }
{
    match procedure {
        0 => run(Fast::new(rule), shift, table, sheet),
        1 => run(Observing::new(rule), shift, table, sheet),
        _ => run(Latest::new(rule), shift, table, sheet),
    }
}

// The run that is asked for.
pub(crate) fn run_asked(
    numbers: &RuleNumbers,
    procedure: u32,
    shift: Shift<'_>,
    table: &mut [Slip<u32>],
    sheet: &mut [Slip<u32>],
) -> Result<(), RunFault>
    ensures { RunsAsked (no_procedure procedure numbers.now) (procedure_by procedure numbers.now) shift.entry.proposals.now shift.entry.each shift.entry.heard.now table.old sheet.old result table.new sheet.new }
{
    if procedure == 3 {
        return run_licence(numbers.boxes, shift, table, sheet);
    }
    match rule_asked(numbers)? {
        ChosenRule::Majority(rule) => run_over(rule, procedure, shift, table, sheet),
        ChosenRule::Sizes(rule) => run_over(rule, procedure, shift, table, sheet),
        ChosenRule::AnchoredMajority(rule) => run_over(rule, procedure, shift, table, sheet),
        ChosenRule::AnchoredSizes(rule) => run_over(rule, procedure, shift, table, sheet),
    }
}
