// A caller that opens a run of each procedure over one rule. Of each it has the promise, from what `Run::open` says of every procedure.
ghost use Rattle.agreement.specs.Promise.{Promise};
ghost use Rattle.procedures.specs.Fast.{fast};
ghost use Rattle.procedures.specs.Latest.{latest};
ghost use Rattle.procedures.specs.Observing.{observing};

use agreement::runs::Run;
use agreement::slips::Slip;
use procedures::fast::Fast;
use procedures::latest::Latest;
use procedures::observing::Observing;
use quorum::rules::ClearView;
use setup::orders::Setup;

// Opens the three, one after another, on one table, and lets them go.
fn three_runs<V: Setup, R: ClearView + Copy + Drop>(rule: R, proposals: &[V], table: &mut [Slip<V>])
    ensures fast { Promise V.Setup.before (fast V.Setup.before (R.Rule.family rule) (R.ClearView.clear rule)) }
    ensures observing { Promise V.Setup.before (observing V.Setup.before (R.Rule.family rule)) }
    ensures latest { Promise V.Setup.before (latest V.Setup.before (R.Rule.family rule)) }
{
    let _ = Run::open(Fast::new(rule), proposals, table);
    let _ = Run::open(Observing::new(rule), proposals, table);
    let _ = Run::open(Latest::new(rule), proposals, table);
}
