// Latest: three beats to a phase, over every rule; a box that hears a quorum picks the setup of the latest vote that it hears of.
ghost use Rattle.std.specs.Prelude.{◌≡◌};
ghost use Rattle.procedures.specs.Latest.{latest, latest_vote as vote_of, next, picked, readied, voted};
ghost use Rattle.procedures.specs.Laws.Latest.{latest_lawful};
ghost use Rattle.procedures.specs.Published.LeaderlessVoting.{Follows};
ghost use Rattle.procedures.specs.Received.{dated, own, received, say};

use crate::fields::{Dated, Own, Pick, Say};
use crate::received::{backed, smallest};
use agreement::procedures::Procedure;
use agreement::slips::Slip;
use quorum::rules::Rule;
use quorum::sets::BoxSet;
use setup::orders::Setup;
use setup::search::first;

#[derive(Clone, Copy, Drop)]
pub struct Latest<R> {
    rule: R,
}

impl<R: Rule> Latest<R> {
    pub fn new(rule: R) -> Latest<R>
        ensures { result.rule ≡ rule }
    {
        Latest { rule }
    }
}

// The setup of the first dated vote received: of the latest one.
fn latest_vote<V: Setup>(heard: BoxSet, table: &[Slip<V>]) -> Option<V>
    ensures { result ≡ vote_of V.Setup.before (received dated table.now heard) }
{
    first(&Dated, table, heard).map(|(_, v)| v)
}

// Beat 0: the box stands for the smallest setup received, and if it heard a quorum it picks the setup of the latest vote, or where there is none what it stands for.
fn pick<V: Setup, R: Rule>(rule: &R, slip: &Slip<V>, heard: BoxSet, table: &[Slip<V>]) -> Slip<V>
    ensures { result ≡ picked (R.Rule.family rule.now) V.Setup.before heard (received own table.now heard) (received dated table.now heard) slip.now }
{
    let own = smallest(&Own, table, heard).unwrap_or(slip.own);
    let pick = if rule.is_quorum(heard) {
        Some(latest_vote(heard, table).unwrap_or(own))
    } else {
        None
    };
    let mut next = slip.quiet();
    next.own = own;
    next.pick = pick;
    next
}

// Beat 1: it is ready to vote for this setup, if there is one, and that is its dated vote then.
fn ready<V: Setup>(phase: u16, slip: &Slip<V>, setup: Option<V>) -> Slip<V>
    ensures { result ≡ readied phase setup slip.now }
{
    let mut next = slip.quiet();
    next.say = setup;
    next.dated = setup.map(|v| (phase, v)).or(slip.dated);
    next
}

// Beat 2: it casts what it was ready to vote for, and what a quorum said is news.
fn vote<V: Setup, R: Rule>(rule: &R, slip: &Slip<V>, heard: BoxSet, table: &[Slip<V>]) -> Slip<V>
    ensures { result ≡ voted (R.Rule.family rule.now) V.Setup.before (received say table.now heard) slip.now }
{
    slip.turned(slip.say, backed(rule, &Say, table, heard, 0))
}

// Beat by beat; in beat 1 it is ready to vote for what a quorum picked.
#[inline(always)]
fn next_slip<V: Setup, R: Rule>(
    rule: &R,
    phase: u16,
    beat: u8,
    slip: &Slip<V>,
    heard: BoxSet,
    table: &[Slip<V>],
) -> Slip<V>
    ensures { result ≡ next (R.Rule.family rule.now) V.Setup.before phase beat heard table.now slip.now }
{
    match beat {
        0 => pick(rule, slip, heard, table),
        1 => ready(phase, slip, backed(rule, &Pick, table, heard, 0)),
        _ => vote(rule, slip, heard, table),
    }
}

impl<V: Setup, R: Rule> Procedure<V> for Latest<R> {
    type Over = R;

    ghost meaning = { λ x. latest V.Setup.before (R.Rule.family x.rule) };

    ghost lawful = { λ x. latest_lawful V.Setup.ordered (R.Rule.family x.rule) (R.Rule.lawful x.rule) };

    fn rule(&self) -> &R {
        &self.rule
    }

    fn beats(&self) -> u8 {
        3
    }

    fn admits(&self, _phase: u16, _beat: u8, _set: BoxSet) -> bool {
        true
    }

    fn is_clear(&self, _phase: u16, _beat: u8, set: BoxSet) -> bool {
        self.rule.is_quorum(set)
    }

    // Over the majority rule it follows the leaderless algorithm of most recent votes.
    fn next(
        &self,
        phase: u16,
        beat: u8,
        _i: usize,
        slip: &Slip<V>,
        heard: BoxSet,
        table: &[Slip<V>],
    ) -> Slip<V>
        ensures value { result ≡ next (R.Rule.family self.now.rule) V.Setup.before phase beat heard table.now slip.now }
        ensures published { Follows V.Setup.before (R.Rule.family self.now.rule) phase beat slip.now heard table.now result }
    {
        next_slip(&self.rule, phase, beat, slip, heard, table)
    }
}
