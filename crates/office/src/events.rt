// What is shown of a shift, one thing after another, and the lines that say it.
ghost use Rattle.std.specs.Prelude.{Some};
ghost use Rattle.office.specs.Events.{shown_as};
ghost use Rattle.office.specs.Printed.{lines_of};

use crate::rows::Row;
use quorum::refusals::Refusal;
use shift::faults::TextFault;
use std::fmt;
use std::fmt::Display;

// A phase that was finished: its number, and of each box what it voted for in it, and what it holds.
#[derive(Clone, Copy)]
pub struct Phase<'a> {
    pub number: u32,
    pub votes: Row<'a>,
    pub held: Row<'a>,
}

#[derive(Clone, Copy)]
pub enum Event<'a> {
    // a beat that the run declined, and why
    Declined(Refusal),
    Phase(Phase<'a>),
    // the fault that ends the reading
    Fault(TextFault),
}

// The lines, without the last line end.
impl fmt::Display for Event<'_> {
    ghost output = { λ event. Some (lines_of (shown_as event)) };

    fn fmt<W: fmt::Write>(&self, f: &mut fmt::Formatter<W>) -> fmt::Result {
        match self {
            Event::Declined(refusal) => {
                f.write_str("declined=")?;
                refusal.number().fmt(f)
            },
            Event::Phase(phase) => {
                f.write_str("phase=")?;
                phase.number.fmt(f)?;
                f.write_str("\nvotes=")?;
                phase.votes.fmt(f)?;
                f.write_str("\nheld=")?;
                phase.held.fmt(f)
            },
            Event::Fault(fault) => fault.fmt(f),
        }
    }
}
