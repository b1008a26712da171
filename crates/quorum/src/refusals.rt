// What a call declines, the layer that declined it, and the place that it names.
ghost use Rattle.std.specs.Prelude.{◌≡◌, Some};
ghost use Rattle.quorum.specs.Refusals.{number, of_rule, word};

use std::fmt;

// Each reason to decline, with its number. Within a call they are checked for in this order; a text's own come before those of what it asks for.
#[derive(Clone, Copy, Debug, PartialEq)]
pub enum Refusal {
    Roster = 1,
    OtherRoster = 2,
    Size = 3,
    NoBox = 4,
    Length = 5,
    Closed = 6,
    Stranger = 7,
    Wait = 8,
    NoRow = 9,
    Defection = 10,
    Unbacked = 11,
    Long = 12,
    Key = 13,
    Value = 14,
}

impl Refusal {
    // The number by which every document and program knows the reason.
    pub fn number(self) -> u8
        ensures { result ≡ number self }
    {
        self as u8
    }
}

// The layer that found the fault.
#[derive(Clone, Copy, Debug, PartialEq)]
pub enum Layer {
    Rule,
    Run,
    Book,
    Text,
}

impl Layer {
    // The word by which a report names the layer.
    fn word(self) -> &'static str
        ensures { result.now ≡ word self }
    {
        match self {
            Layer::Rule => "rule",
            Layer::Run => "run",
            Layer::Book => "book",
            Layer::Text => "text",
        }
    }
}

impl fmt::Display for Layer {
    ghost output = { λ layer. Some (word layer) };

    fn fmt<W: fmt::Write>(&self, f: &mut fmt::Formatter<W>) -> fmt::Result {
        f.write_str(self.word())
    }
}

// A refusal as it is reported. What a layer declines with is made into one by `From`; a layer above holds the fault of the one below inside its own, and reports it unchanged.
#[derive(Clone, Copy, Debug, PartialEq)]
pub struct Fault {
    pub refusal: Refusal,
    pub layer: Layer,
    // a box, the rank of a list, or 0: one number for every refusal, as reports give it
    pub place: usize,
}

// What the making of a rule declines with.
#[derive(Clone, Copy, Debug, PartialEq)]
pub enum RuleFault {
    Roster,
    Size,
    NoBox,
}

impl From<RuleFault> for Fault {
    ghost from_gives = { λ fault r. r ≡ of_rule fault };

    fn from(fault: RuleFault) -> Fault {
        let refusal = match fault {
            RuleFault::Roster => Refusal::Roster,
            RuleFault::Size => Refusal::Size,
            RuleFault::NoBox => Refusal::NoBox,
        };
        Fault {
            refusal,
            layer: Layer::Rule,
            place: 0,
        }
    }
}
