// Observing: two beats to a phase, over every rule; a box goes on only if it hears a quorum.
ghost use Rattle.std.specs.Prelude.{◌≡◌};
ghost use Rattle.procedures.specs.Laws.Observing.{observing_lawful};
ghost use Rattle.procedures.specs.Observing.{next, observed, observing, readied};
ghost use Rattle.procedures.specs.Published.UniformVoting.{Follows};
ghost use Rattle.procedures.specs.Received.{own, received, say};

use crate::fields::{Own, Say};
use crate::received::{smallest, unanimous};
use agreement::procedures::Procedure;
use agreement::slips::Slip;
use quorum::rules::Rule;
use quorum::sets::BoxSet;
use setup::orders::Setup;

#[derive(Clone, Copy, Drop)]
pub struct Observing<R> {
    rule: R,
}

impl<R: Rule> Observing<R> {
    pub fn new(rule: R) -> Observing<R>
        ensures { result.rule ≡ rule }
    {
        Observing { rule }
    }
}

// Beat 0: the box stands for the smallest setup received, and is ready to vote for it if all sent it.
#[inline(always)]
fn ready<V: Setup>(slip: &Slip<V>, heard: BoxSet, table: &[Slip<V>]) -> Slip<V>
    ensures { result ≡ readied V.Setup.before heard (received own table.now heard) slip.now }
{
    let own = smallest(&Own, table, heard).unwrap_or(slip.own);
    let say = unanimous(&Own, table, heard);
    let mut next = slip.quiet();
    next.own = own;
    next.say = say;
    next
}

// Beat 1: it casts what it was ready to vote for, what all said is news, and it stands for what was said.
#[inline(always)]
fn observe<V: Setup>(slip: &Slip<V>, heard: BoxSet, table: &[Slip<V>]) -> Slip<V>
    ensures { result ≡ observed V.Setup.before heard (received say table.now heard) (received own table.now heard) slip.now }
{
    let own = smallest(&Say, table, heard)
        .or_else(|| smallest(&Own, table, heard))
        .unwrap_or(slip.own);
    let mut next = slip.turned(slip.say, unanimous(&Say, table, heard));
    next.own = own;
    next
}

// Beat by beat.
#[inline(always)]
fn next_slip<V: Setup>(beat: u8, slip: &Slip<V>, heard: BoxSet, table: &[Slip<V>]) -> Slip<V>
    ensures { result ≡ next V.Setup.before beat heard table.now slip.now }
{
    match beat {
        0 => ready(slip, heard, table),
        _ => observe(slip, heard, table),
    }
}

impl<V: Setup, R: Rule> Procedure<V> for Observing<R> {
    type Over = R;

    ghost meaning = { λ x. observing V.Setup.before (R.Rule.family x.rule) };

    ghost lawful = { λ x. observing_lawful V.Setup.ordered (R.Rule.family x.rule) (R.Rule.lawful x.rule) };

    fn rule(&self) -> &R {
        &self.rule
    }

    fn beats(&self) -> u8 {
        2
    }

    fn admits(&self, _phase: u16, _beat: u8, set: BoxSet) -> bool {
        self.rule.is_quorum(set)
    }

    fn is_clear(&self, _phase: u16, _beat: u8, set: BoxSet) -> bool {
        self.rule.is_quorum(set)
    }

    // It follows UniformVoting.
    fn next(
        &self,
        _phase: u16,
        beat: u8,
        _i: usize,
        slip: &Slip<V>,
        heard: BoxSet,
        table: &[Slip<V>],
    ) -> Slip<V>
        ensures value { result ≡ next V.Setup.before beat heard table.now slip.now }
        ensures published { Follows V.Setup.before (R.Rule.family self.now.rule) beat slip.now heard table.now result }
    {
        next_slip(beat, slip, heard, table)
    }
}
