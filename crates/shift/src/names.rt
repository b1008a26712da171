// The rules and the procedures that a text can ask for, by name.
ghost use Rattle.std.specs.Prelude.{◌≡◌};
ghost use Rattle.shift.specs.Names.{procedure, rule};

use crate::forms::Form;

#[derive(Clone, Copy, Debug, PartialEq)]
pub enum RuleName {
    Majority,
    Thirds,
    Anchored,
}

impl Form for RuleName {
    ghost form = { rule };

    // The rule that the value names.
    #[tactic(auto, using(crate::proofs::Words::rules))]
    fn read(value: &[u8]) -> Option<RuleName>
        ensures { result ≡ rule value.now }
    {
        match value {
            b"majority" => Some(RuleName::Majority),
            b"thirds" => Some(RuleName::Thirds),
            b"anchored" => Some(RuleName::Anchored),
            _ => None,
        }
    }
}

#[derive(Clone, Copy, Debug, PartialEq)]
pub enum ProcedureName {
    Fast,
    Observing,
    Latest,
}

impl Form for ProcedureName {
    ghost form = { procedure };

    // The procedure that the value names.
    #[tactic(auto, using(crate::proofs::Words::procedures))]
    fn read(value: &[u8]) -> Option<ProcedureName>
        ensures { result ≡ procedure value.now }
    {
        match value {
            b"fast" => Some(ProcedureName::Fast),
            b"observing" => Some(ProcedureName::Observing),
            b"latest" => Some(ProcedureName::Latest),
            _ => None,
        }
    }
}
