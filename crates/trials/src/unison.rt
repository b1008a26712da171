// Unison, a small procedure for trials of runs. It has one beat: a box goes on only if it hears all boxes, takes the first
// setup that any of them stands for, votes for it, and has it as news.
ghost use Rattle.std.specs.Prelude.{◌≡◌};
ghost use Rattle.quorum.specs.Families.{present};
ghost use Rattle.trials.specs.Unison.{unison};
ghost use Rattle.trials.specs.UnisonLaws.{unison_lawful};

use agreement::procedures::Procedure;
use agreement::slips::Slip;
use procedures::fields::Own;
use quorum::rules::Rule;
use quorum::sets::{BoxSet, all_below};
use setup::orders::Setup;
use setup::search::first;

#[derive(Clone, Copy, Drop)]
pub(crate) struct Unison<R> {
    pub(crate) rule: R,
}

impl<R: Rule> Unison<R> {
    // Whether the set is the whole roster.
    fn is_whole(&self, set: BoxSet) -> bool
        ensures { result ≡ present (R.Rule.family self.now.rule) set }
    {
        set == all_below(self.rule.boxes())
    }
}

impl<V: Setup, R: Rule> Procedure<V> for Unison<R> {
    type Over = R;

    ghost meaning = { λ x. unison V.Setup.before (R.Rule.family x.rule) };

    ghost lawful = { λ x. unison_lawful V.Setup.ordered (R.Rule.family x.rule) (R.Rule.lawful x.rule) };

    fn rule(&self) -> &R {
        &self.rule
    }

    fn beats(&self) -> u8 {
        1
    }

    fn admits(&self, _phase: u16, _beat: u8, set: BoxSet) -> bool {
        self.is_whole(set)
    }

    fn is_clear(&self, _phase: u16, _beat: u8, set: BoxSet) -> bool {
        self.is_whole(set)
    }

    fn next(
        &self,
        _phase: u16,
        _beat: u8,
        _i: usize,
        slip: &Slip<V>,
        heard: BoxSet,
        table: &[Slip<V>],
    ) -> Slip<V> {
        let own = first(&Own, table, heard).unwrap_or(slip.own);
        Slip {
            own,
            ..slip.turned(Some(own), Some(own))
        }
    }
}
