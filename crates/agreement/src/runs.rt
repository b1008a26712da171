// A run of a procedure: it is opened on proposals, worked by beats, and read.
ghost use Rattle.std.specs.Prelude.{◌≡◌, IfOk};
ghost use Rattle.agreement.specs.Calls.{Beats, FirstStranger, Opens, Reads, clocked};
ghost use Rattle.agreement.specs.Promise.{Promise};

use crate::beats::close;
use crate::checks::{may_open, may_read};
use crate::clocks::Clock;
use crate::faults::RunFault;
use crate::procedures::Procedure;
use crate::slips::Slip;
use crate::tables::fill;
use quorum::rules::Rule;
use quorum::sets::BoxSet;
use setup::orders::Setup;
use std::marker::PhantomData;

// A procedure at work on one kind of setup, and the phase and beat that are due. `setups` only names the kind.
#[derive(Drop)]
pub struct Run<V, P> {
    procedure: P,
    clock: Clock,
    setups: PhantomData<V>,
}

// Fills the table for an opening, or declines it.
fn begin<V: Setup, P: Procedure<V>>(
    procedure: &P,
    proposals: &[V],
    table: &mut [Slip<V>],
) -> Result<Clock, RunFault>
    ensures { Opens (P.Procedure.meaning procedure.now) proposals.now table.old result table.new }
{
    may_open(procedure.rule().boxes(), proposals.len(), table.len())?;
    fill(proposals, table);
    Ok(Clock::beginning())
}

impl<V: Setup, P: Procedure<V>> Run<V, P> {
    // Opens a run on a proposal for each box, and fills the table with their first slips. However it is then worked, it keeps the promise.
    pub fn open(procedure: P, proposals: &[V], table: &mut [Slip<V>]) -> Result<Run<V, P>, RunFault>
    where
        P: Drop,
        ensures opens { Opens (P.Procedure.meaning procedure) proposals.now table.old (clocked result) table.new }
        ensures runs { IfOk result (λ run. run.procedure ≡ procedure) }
        ensures promise { Promise V.Setup.before (P.Procedure.meaning procedure) }
    {
        let clock = begin(&procedure, proposals, table)?;
        Ok(Run {
            procedure,
            clock,
            setups: PhantomData,
        })
    }

    // The phase and beat that are due.
    pub fn due(&self) -> Clock
        ensures { result ≡ self.now.clock }
    {
        self.clock
    }

    // The procedure that it runs.
    pub fn procedure(&self) -> &P
        ensures { result.now ≡ self.now.procedure }
    {
        &self.procedure
    }

    // Takes the beat that is due: the table is rewritten, and the sheet receives the former slips.
    pub fn beat(
        &mut self,
        table: &mut [Slip<V>],
        sheet: &mut [Slip<V>],
        heard: &[BoxSet],
    ) -> Result<(), RunFault>
        ensures beats { Beats (P.Procedure.meaning self.old.procedure) self.old.clock table.old sheet.old heard.now result self.new.clock table.new sheet.new }
        ensures first { FirstStranger (P.Procedure.meaning self.old.procedure).rule.boxes heard.now result }
        ensures runs { self.new.procedure ≡ self.old.procedure }
    {
        close(&self.procedure, &mut self.clock, table, sheet, heard)
    }

    // The slip of a box.
    pub fn read(&self, table: &[Slip<V>], i: usize) -> Result<Slip<V>, RunFault>
        ensures { Reads (P.Procedure.meaning self.now.procedure) table.now i result }
    {
        may_read(self.procedure.rule().boxes(), table.len(), i)?;
        Ok(table[i])
    }
}
