// Three boxes at a run: its beats, and what the boxes then have.
use crate::refused::refusal;
use agreement::faults::RunFault;
use agreement::procedures::Procedure;
use agreement::runs::Run;
use agreement::slips::Slip;
use quorum::sets::BoxSet;
use setup::dated::DatedVote;
use setup::orders::Setup;

// The run, with its table and its sheet.
#[derive(Drop)]
pub(crate) struct Trio<V, P> {
    pub(crate) run: Run<V, P>,
    pub(crate) table: [Slip<V>; 3],
    pub(crate) sheet: [Slip<V>; 3],
}

impl<V: Setup, P: Procedure<V> + Drop> Trio<V, P> {
    // A run on the three proposals, with a sheet of three slips that propose `blank`.
    pub(crate) fn open(procedure: P, proposals: [V; 3], blank: V) -> Result<Trio<V, P>, RunFault> {
        let mut table = [Slip::opening(blank); 3];
        let run = Run::open(procedure, &proposals, &mut table)?;
        Ok(Trio {
            run,
            table,
            sheet: [Slip::opening(blank); 3],
        })
    }

    // What the beat is declined with, none where it is taken.
    pub(crate) fn beat(&mut self, heard: &[BoxSet]) -> Option<(u8, usize)> {
        refusal(self.run.beat(&mut self.table, &mut self.sheet, heard))
    }

    // Works the beats in turn, and answers what each box then holds.
    pub(crate) fn work(&mut self, beats: &[[BoxSet; 3]]) -> Result<[Option<V>; 3], RunFault> {
        for heard in beats {
            self.run.beat(&mut self.table, &mut self.sheet, heard)?;
        }
        Ok(held(&self.table))
    }
}

pub(crate) fn own<V: Copy>(table: &[Slip<V>; 3]) -> [V; 3] {
    let [a, b, c] = table;
    [a.own, b.own, c.own]
}

pub(crate) fn held<V: Copy>(table: &[Slip<V>; 3]) -> [Option<V>; 3] {
    let [a, b, c] = table;
    [a.held, b.held, c.held]
}

// What the boxes stand for, and what they would have the others vote for.
pub(crate) fn picked<V: Copy>(table: &[Slip<V>; 3]) -> ([V; 3], [Option<V>; 3]) {
    let [a, b, c] = table;
    ([a.own, b.own, c.own], [a.pick, b.pick, c.pick])
}

// What they are ready to vote for, and their dated votes.
pub(crate) fn said<V: Copy>(table: &[Slip<V>; 3]) -> ([Option<V>; 3], [Option<DatedVote<V>>; 3]) {
    let [a, b, c] = table;
    ([a.say, b.say, c.say], [a.dated, b.dated, c.dated])
}

// Their votes and their news.
pub(crate) fn voted<V: Copy>(table: &[Slip<V>; 3]) -> ([Option<V>; 3], [Option<V>; 3]) {
    let [a, b, c] = table;
    ([a.cast, b.cast, c.cast], [a.news, b.news, c.news])
}
