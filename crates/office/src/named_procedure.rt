// The procedure that a text asks for, by its name, over the rule that it asks for.
ghost use Rattle.std.specs.Prelude.{◌≡◌};
ghost use Rattle.office.specs.Laws.{procedure_lawful};
ghost use Rattle.office.specs.Named.{meant, over};
ghost use Rattle.quorum.specs.Chosen.{clear_of, family_of};

use agreement::procedures::Procedure;
use agreement::slips::Slip;
use procedures::fast::Fast;
use procedures::latest::Latest;
use procedures::observing::Observing;
use quorum::chosen::ChosenRule;
use quorum::sets::BoxSet;
use shift::names::ProcedureName;

#[derive(Clone, Copy)]
pub(crate) enum NamedProcedure {
    Fast(Fast<ChosenRule>),
    Observing(Observing<ChosenRule>),
    Latest(Latest<ChosenRule>),
}

impl NamedProcedure {
    // The procedure of that name over the rule.
    pub(crate) fn new(name: ProcedureName, rule: ChosenRule) -> NamedProcedure
        ensures { meant result ≡ over name (family_of rule) (clear_of rule) }
    {
        match name {
            ProcedureName::Fast => NamedProcedure::Fast(Fast::new(rule)),
            ProcedureName::Observing => NamedProcedure::Observing(Observing::new(rule)),
            ProcedureName::Latest => NamedProcedure::Latest(Latest::new(rule)),
        }
    }
}

impl Procedure<u32> for NamedProcedure {
    type Over = ChosenRule;

    ghost meaning = { meant };

    ghost lawful = { procedure_lawful };

    fn rule(&self) -> &ChosenRule {
        match self {
            NamedProcedure::Fast(x) => Procedure::<u32>::rule(x),
            NamedProcedure::Observing(x) => Procedure::<u32>::rule(x),
            NamedProcedure::Latest(x) => Procedure::<u32>::rule(x),
        }
    }

    fn beats(&self) -> u8 {
        match self {
            NamedProcedure::Fast(x) => Procedure::<u32>::beats(x),
            NamedProcedure::Observing(x) => Procedure::<u32>::beats(x),
            NamedProcedure::Latest(x) => Procedure::<u32>::beats(x),
        }
    }

    fn admits(&self, phase: u16, beat: u8, set: BoxSet) -> bool {
        match self {
            NamedProcedure::Fast(x) => Procedure::<u32>::admits(x, phase, beat, set),
            NamedProcedure::Observing(x) => Procedure::<u32>::admits(x, phase, beat, set),
            NamedProcedure::Latest(x) => Procedure::<u32>::admits(x, phase, beat, set),
        }
    }

    fn is_clear(&self, phase: u16, beat: u8, set: BoxSet) -> bool {
        match self {
            NamedProcedure::Fast(x) => Procedure::<u32>::is_clear(x, phase, beat, set),
            NamedProcedure::Observing(x) => Procedure::<u32>::is_clear(x, phase, beat, set),
            NamedProcedure::Latest(x) => Procedure::<u32>::is_clear(x, phase, beat, set),
        }
    }

    fn next(
        &self,
        phase: u16,
        beat: u8,
        i: usize,
        slip: &Slip<u32>,
        heard: BoxSet,
        table: &[Slip<u32>],
    ) -> Slip<u32> {
        match self {
            NamedProcedure::Fast(x) => x.next(phase, beat, i, slip, heard, table),
            NamedProcedure::Observing(x) => x.next(phase, beat, i, slip, heard, table),
            NamedProcedure::Latest(x) => x.next(phase, beat, i, slip, heard, table),
        }
    }
}
