// Fast: one beat to a phase, over every clear-view rule.
ghost use Rattle.std.specs.Prelude.{◌≡◌, true};
ghost use Rattle.procedures.specs.Fast.{AtMostOne, fast, favourite as favourite_of, polled};
ghost use Rattle.procedures.specs.Laws.Fast.{fast_lawful};
ghost use Rattle.procedures.specs.Published.OneThirdRule.{Follows};
ghost use Rattle.procedures.specs.Received.{backed as backed_by, own, received, unheard as boxes_unheard};

use crate::fields::Own;
use crate::received::{backed, most_often};
use agreement::procedures::Procedure;
use agreement::slips::Slip;
use quorum::rules::ClearView;
use quorum::sets::{BoxSet, all_below};
use setup::orders::Setup;

#[derive(Clone, Copy, Drop)]
pub struct Fast<R> {
    rule: R,
}

// The boxes of the roster that are not in a clear set.
#[tactic(auto, using(crate::proofs::Clearing::unheard_fits, crate::proofs::Clearing::unheard_is))]
fn unheard<R: ClearView>(rule: &R, heard: BoxSet) -> BoxSet
    requires { R.ClearView.clear rule.now heard ≡ true }
    ensures { result ≡ boxes_unheard (R.Rule.family rule.now).boxes heard }
{
    all_below(rule.boxes()) - heard
}

impl<R: ClearView> Fast<R> {
    pub fn new(rule: R) -> Fast<R>
        ensures { result.rule ≡ rule }
    {
        Fast { rule }
    }

    // What a box votes for that heard a clear set, and what a quorum sent: where it heard all boxes the two are the same search.
    fn favourite<V: Setup>(&self, heard: BoxSet, table: &[Slip<V>], news: Option<V>) -> Option<V>
        requires clear { R.ClearView.clear self.now.rule heard ≡ true }
        requires sent { news ≡ backed_by (R.Rule.family self.now.rule) V.Setup.before 0 (received own table.now heard) }
        ensures { result ≡ favourite_of (R.Rule.family self.now.rule) V.Setup.before heard (received own table.now heard) }
    {
        let unheard = unheard(&self.rule, heard);
        let possible = if unheard == 0 {
            news
        } else {
            backed(&self.rule, &Own, table, heard, unheard)
        };
        possible.or_else(|| most_often(&Own, table, heard))
    }

    // It casts what it stood for, what a quorum sent is news, and where it heard a clear set it stands for the favourite.
    #[inline(always)]
    fn poll<V: Setup>(&self, slip: &Slip<V>, heard: BoxSet, table: &[Slip<V>]) -> Slip<V>
        ensures { result ≡ polled (R.Rule.family self.now.rule) V.Setup.before (R.ClearView.clear self.now.rule) heard (received own table.now heard) slip.now }
    {
        let news = backed(&self.rule, &Own, table, heard, 0);
        let own = if self.rule.is_clear(heard) {
            self.favourite(heard, table, news).unwrap_or(slip.own)
        } else {
            slip.own
        };
        Slip {
            own,
            ..slip.turned(Some(slip.own), news)
        }
    }
}

impl<V: Setup, R: ClearView> Procedure<V> for Fast<R> {
    type Over = R;

    ghost meaning = { λ x. fast V.Setup.before (R.Rule.family x.rule) (R.ClearView.clear x.rule) };

    ghost lawful = { λ x. fast_lawful V.Setup.ordered (R.Rule.family x.rule) (R.Rule.lawful x.rule) (R.ClearView.clear x.rule) (R.ClearView.clear_lawful x.rule) };

    fn rule(&self) -> &R {
        &self.rule
    }

    fn beats(&self) -> u8 {
        1
    }

    fn admits(&self, _phase: u16, _beat: u8, _set: BoxSet) -> bool {
        true
    }

    fn is_clear(&self, _phase: u16, _beat: u8, set: BoxSet) -> bool {
        self.rule.is_clear(set)
    }

    // Over more than two thirds it follows OneThirdRule.
    fn next(
        &self,
        _phase: u16,
        _beat: u8,
        _i: usize,
        slip: &Slip<V>,
        heard: BoxSet,
        table: &[Slip<V>],
    ) -> Slip<V>
        ensures value { result ≡ polled (R.Rule.family self.now.rule) V.Setup.before (R.ClearView.clear self.now.rule) heard (received own table.now heard) slip.now }
        ensures one { AtMostOne (R.Rule.family self.now.rule) V.Setup.before (R.ClearView.clear self.now.rule) heard (received own table.now heard) }
        ensures published { Follows V.Setup.before (R.Rule.family self.now.rule) (R.ClearView.clear self.now.rule) slip.now heard table.now result }
    {
        self.poll(slip, heard, table)
    }
}
