// The standard licence: Latest over the majorities that contain box 0, which stands in the shaft.
ghost use Rattle.std.specs.Prelude.{◌≡◌, IfOk};
ghost use Rattle.quorum.specs.Making.{no_roster};
ghost use Rattle.quorum.specs.Refusals.{Answers};
ghost use Rattle.agreement.specs.Calls.{clocked};
ghost use Rattle.agreement.specs.Promise.{Promise};
ghost use Rattle.procedures.specs.Licence.{OpensLicence, licensed, standard, standard_family};

use crate::latest::Latest;
use agreement::faults::RunFault;
use agreement::runs::Run;
use agreement::slips::Slip;
use quorum::anchored::Anchored;
use quorum::majority::Majority;
use quorum::refusals::RuleFault;
use setup::orders::Setup;

pub type StandardRule = Anchored<Majority>;

pub type Licence<V> = Run<V, Latest<StandardRule>>;

// The rule of the standard licence.
fn standard_rule(boxes: usize) -> Result<StandardRule, RuleFault>
    ensures { Answers (no_roster boxes) (λ x. standard_family x ≡ standard boxes) result }
{
    Anchored::new(Majority::new(boxes)?, 0)
}

// Opens the standard licence of this number of boxes. It keeps the promise, as every run does.
pub fn open<V: Setup>(
    boxes: usize,
    proposals: &[V],
    table: &mut [Slip<V>],
) -> Result<Licence<V>, RunFault>
    ensures opens { OpensLicence V.Setup.before boxes proposals.now table.old (clocked result) table.new }
    ensures runs { IfOk result (λ run. standard_family run.procedure.rule ≡ standard boxes) }
    ensures promise { IfOk result (λ run. Promise V.Setup.before (licensed V.Setup.before boxes)) }
{
    let rule = standard_rule(boxes)?;
    Run::open(Latest::new(rule), proposals, table)
}
