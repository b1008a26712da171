// What the lines ask for that a shift's text begins with.
ghost use Rattle.std.specs.Prelude.{◌≡◌, length};
ghost use Rattle.office.specs.Named.{meant};
ghost use Rattle.shift.specs.Lists.{listed};

use crate::named_procedure::NamedProcedure;
use shift::list::Numbers;

pub(crate) mod reading;

// A procedure, and a setup for each box of its roster.
#[derive(Clone, Copy)]
pub(crate) struct Head {
    pub(crate) procedure: NamedProcedure,
    pub(crate) setups: Numbers,
    ghost proposed: { length (listed setups) ≡ (meant procedure).rule.boxes },
}
