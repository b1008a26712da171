// The beats of a run at work, and what is shown of each.
ghost use Rattle.std.specs.Prelude.{◌≡◌, ◌<◌, ◌≤◌, None, OnOk, is_none, length};
ghost use Rattle.std.specs.Option.{option_map};
ghost use Rattle.office.specs.Answers.{outcome, refused, start};
ghost use Rattle.office.specs.Events.{shown_as};
ghost use Rattle.office.specs.Heads as heads;
ghost use Rattle.office.specs.Named.{meant};
ghost use Rattle.office.specs.Reading.{HasRead};
ghost use Rattle.office.specs.Working.{at_work, declined_with, moment, shown_by};
ghost use Rattle.shift.specs.Lines.{left, unless_long};
ghost use Rattle.shift.specs.Lists.{listed};
ghost use Rattle.shift.specs.Told.{told};

use crate::events::Event;
use crate::head::Head;
use crate::head::reading::read_beat;
use crate::named_procedure::NamedProcedure;
use crate::signs::Sign;
use crate::work::{ROOM, Work};
use agreement::faults::RunFault;
use agreement::procedures::Procedure;
use agreement::runs::Run;
use agreement::slips::Slip;
use quorum::refusals::Fault;
use quorum::rules::Rule;
use quorum::sets::BoxSet;
use shift::faults::TextFault;
use shift::list::Numbers;
use shift::reader::Reader;

// A beat on the first `boxes` slips of the table and the sheet.
fn offer(
    run: &mut Run<u32, NamedProcedure>,
    boxes: usize,
    table: &mut [Slip<u32>],
    sheet: &mut [Slip<u32>],
    heard: &[BoxSet],
) -> Result<(), RunFault>
    requires { ((meant run.old.procedure).rule.boxes ≡ boxes) × (boxes ≤ length table.old) × (boxes ≤ length sheet.old) }
    ensures declines { declined_with result ≡ refused (meant run.old.procedure) (at_work run.old boxes table.old) heard.now }
    ensures moves { at_work run.new boxes table.new ≡ (outcome (meant run.old.procedure) (at_work run.old boxes table.old) heard.now).1 }
    ensures runs { run.new.procedure ≡ run.old.procedure }
    ensures lens { (length table.new ≡ length table.old) × (length sheet.new ≡ length sheet.old) }
{
    run.beat(&mut table[..boxes], &mut sheet[..boxes], heard)
}

impl Work {
    // Opens the run that the head asks for, which no opening refuses: a head has a setup for each box. Nothing is shown yet.
    pub(crate) fn open(head: Head) -> Work
        ensures runs { meant result.run.procedure ≡ meant head.procedure }
        ensures opens { moment result ≡ start (listed head.setups) }
        ensures shows { shown_by result ≡ None }
    {
        let boxes = Procedure::<u32>::rule(&head.procedure).boxes();
        let mut table = [Slip::opening(0); ROOM];
        let run = Run::open(head.procedure, head.setups.as_slice(), &mut table[..boxes]).unwrap();
        Work {
            run,
            boxes,
            table,
            sheet: table,
            heard: Numbers::empty(),
            sign: None,
        }
    }

    // Reads the next line, which is to be a beat.
    pub(crate) fn read(&mut self, reader: &mut Reader<'_>) -> Result<(), TextFault>
        ensures value { told (λ u. listed self.new.heard) result ≡ unless_long reader.old.text.now (heads.beat reader.old.line (left reader.old)) }
        ensures read { HasRead 1 reader.old result reader.new }
        ensures moves { OnOk result (reader.old.at < reader.new.at) }
        ensures runs { self.new.run.procedure ≡ self.old.run.procedure }
        ensures stands { moment self.new ≡ moment self.old }
    {
        read_beat(reader, &mut self.heard)
    }

    // Takes the beat that was read, or declines it.
    pub(crate) fn beat(&mut self)
        ensures shows { shown_by self.new ≡ (outcome (meant self.old.run.procedure) (moment self.old) (listed self.old.heard)).0 }
        ensures moves { moment self.new ≡ (outcome (meant self.old.run.procedure) (moment self.old) (listed self.old.heard)).1 }
        ensures runs { self.new.run.procedure ≡ self.old.run.procedure }
    {
        let phase = self.run.due().phase;
        let answer = offer(
            &mut self.run,
            self.boxes,
            &mut self.table,
            &mut self.sheet,
            self.heard.as_slice(),
        );
        self.sign = match answer {
            Err(fault) => Some(Sign::Declined(Fault::from(fault).refusal)),
            Ok(()) if self.run.due().beat == 0 => Some(Sign::Ended(phase)),
            Ok(()) => None,
        };
    }

    // Whether nothing is shown here.
    pub(crate) fn is_silent(&self) -> bool
        ensures { result ≡ is_none (shown_by self.now) }
    {
        self.sign.is_none()
    }

    // What is shown here, if anything is.
    pub(crate) fn event(&self) -> Option<Event<'_>>
        ensures { option_map shown_as result ≡ shown_by self.now }
    {
        Some(self.sign?.event(&self.table[..self.boxes]))
    }
}
