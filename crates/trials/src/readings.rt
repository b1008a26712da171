// A caller of a run, as an example of how the promise is come by from what the calls say: what two boxes are read to hold, at different moments, is one setup.
ghost use Rattle.trials.specs.Readings.{OneSetup};

use agreement::faults::RunFault;
use agreement::procedures::Procedure;
use agreement::runs::Run;
use agreement::slips::Slip;
use quorum::sets::BoxSet;
use setup::orders::Setup;

// Opens a run, gives it two beats, whatever they hear, taken or not, and reads the machine's box after the first and the office's after the second.
fn two_readings<V: Setup, P: Procedure<V> + Drop>(
    procedure: P,
    proposals: &[V],
    table: &mut [Slip<V>],
    sheet: &mut [Slip<V>],
    first: &[BoxSet],
    second: &[BoxSet],
    machine: usize,
    office: usize,
) -> Result<Option<(V, V)>, RunFault>
    ensures { OneSetup result }
{
    let mut run = Run::open(procedure, proposals, table)?;
    let _ = run.beat(table, sheet, first);
    let steered = run.read(table, machine)?;
    let _ = run.beat(table, sheet, second);
    let filed = run.read(table, office)?;
    Ok(steered.held.zip(filed.held))
}
