// Callers of one beat of each procedure, over the rule that its published algorithm is over: the new slip is a round of the algorithm.
ghost use Rattle.std.specs.Prelude.{◌≡◌, ◌*◌, ◌<◌, IfOk, length, true};
ghost use Rattle.quorum.specs.Sets.{within};
ghost use Rattle.procedures.specs.Published.LeaderlessVoting.{Round as LeaderlessRound};
ghost use Rattle.procedures.specs.Published.OneThirdRule.{Round as OneThirdRound, process, received};
ghost use Rattle.procedures.specs.Published.UniformVoting.{Round as UniformRound, candidates};

use agreement::procedures::Procedure;
use agreement::slips::Slip;
use procedures::fast::Fast;
use procedures::latest::Latest;
use procedures::observing::Observing;
use quorum::majority::Majority;
use quorum::refusals::RuleFault;
use quorum::sets::BoxSet;
use quorum::sizes::Sizes;
use setup::orders::Setup;

// A beat of Fast over the thirds sizes.
fn one_third_round<V: Setup>(
    boxes: usize,
    slip: &Slip<V>,
    heard: BoxSet,
    table: &[Slip<V>],
) -> Result<Slip<V>, RuleFault>
    ensures { IfOk result (λ new. length table.now ≡ boxes → within boxes heard ≡ true → OneThirdRound V.Setup.before boxes (received table.now heard) (process slip.now) (process new)) }
{
    Ok(Fast::new(Sizes::thirds(boxes)?).next(0, 0, 0, slip, heard, table))
}

// A beat of Observing over the majority rule.
fn uniform_round<V: Setup>(
    boxes: usize,
    beat: u8,
    slip: &Slip<V>,
    heard: BoxSet,
    table: &[Slip<V>],
) -> Result<Slip<V>, RuleFault>
    ensures { IfOk result (λ new. length table.now ≡ boxes → within boxes heard ≡ true → boxes < 2 * length (candidates table.now heard) → UniformRound V.Setup.before beat slip.now heard table.now new) }
{
    Ok(Observing::new(Majority::new(boxes)?).next(0, beat, 0, slip, heard, table))
}

// A beat of Latest over the majority rule.
fn leaderless_round<V: Setup>(
    boxes: usize,
    phase: u16,
    beat: u8,
    slip: &Slip<V>,
    heard: BoxSet,
    table: &[Slip<V>],
) -> Result<Slip<V>, RuleFault>
    ensures { IfOk result (λ new. length table.now ≡ boxes → within boxes heard ≡ true → LeaderlessRound V.Setup.before boxes phase beat slip.now heard table.now new) }
{
    Ok(Latest::new(Majority::new(boxes)?).next(phase, beat, 0, slip, heard, table))
}
