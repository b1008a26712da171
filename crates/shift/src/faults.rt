// What the reading of a text declines with, and where in the text.
ghost use Rattle.std.specs.Prelude.{◌≡◌, Some};
ghost use Rattle.shift.specs.Faults.{at_line, at_run, of_text, report};

use agreement::faults::RunFault;
use quorum::refusals::{Fault, Layer, Refusal};
use std::fmt;

// A place in the text: lines and columns count from 1.
#[derive(Clone, Copy, Debug, PartialEq)]
pub struct Spot {
    pub line: usize,
    pub column: usize,
}

// Why a text is declined: by its own form, or by the run that it asks for, inside whose fault is that of its rule.
#[derive(Clone, Copy, Debug, PartialEq)]
pub enum Cause {
    Long,
    Key,
    Value,
    Run(RunFault),
}

// A fault and where it was found.
#[derive(Clone, Copy, Debug, PartialEq)]
pub struct TextFault {
    pub cause: Cause,
    pub spot: Spot,
}

impl TextFault {
    // The fault of a whole line.
    pub(crate) fn at_line(cause: Cause, line: usize) -> TextFault
        ensures { result ≡ at_line cause line }
    {
        TextFault {
            cause,
            spot: Spot { line, column: 1 },
        }
    }
}

impl From<TextFault> for Fault {
    ghost from_gives = { λ found r. r ≡ of_text found };

    fn from(found: TextFault) -> Fault {
        let refusal = match found.cause {
            Cause::Run(below) => return Fault::from(below),
            Cause::Long => Refusal::Long,
            Cause::Key => Refusal::Key,
            Cause::Value => Refusal::Value,
        };
        Fault {
            refusal,
            layer: Layer::Text,
            place: 0,
        }
    }
}

// What is reported of the fault, and where it was found: five lines, without the last line end.
impl fmt::Display for TextFault {
    ghost output = { λ found. Some (report found) };

    fn fmt<W: fmt::Write>(&self, f: &mut fmt::Formatter<W>) -> fmt::Result {
        let fault = Fault::from(*self);
        let number = fault.refusal.number();
        let layer = fault.layer;
        let place = fault.place;
        let line = self.spot.line;
        let column = self.spot.column;
        write!(
            f,
            "fault={number}\nlayer={layer}\nplace={place}\nline={line}\ncolumn={column}"
        )
    }
}

// A run's fault, or the rule's inside it, with the line and column that asked for it.
impl From<(RunFault, Spot)> for TextFault {
    ghost from_gives = { λ f r. r ≡ at_run f.0 f.1 };

    fn from(found: (RunFault, Spot)) -> TextFault {
        TextFault {
            cause: Cause::Run(found.0),
            spot: found.1,
        }
    }
}
