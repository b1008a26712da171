// An answer, and the steps by which it goes on: each comes to one thing that is shown, or to nothing, until nothing is left.
ghost use Rattle.std.specs.Prelude.{◌≡◌, ◌<◌, ◌⊎◌, drop, false, true};
ghost use Rattle.std.specs.Option.{option_map};
ghost use Rattle.office.specs.Agreed.{Agreed, proposals};
ghost use Rattle.office.specs.Answers.{answer};
ghost use Rattle.office.specs.Coming.{ahead, coming, steps, to_come};
ghost use Rattle.office.specs.Events.{shown_as};
ghost use Rattle.office.specs.Shown.{first_of};
ghost use Rattle.office.specs.Stages.{here, silent, within_limit};

use crate::answers::{Answer, Stage};
use crate::events::Event;
use crate::head::reading::read_head;
use crate::work::Work;
use shift::reader::Reader;

impl<'a> Answer<'a> {
    // The answer to a text, at the first thing that is shown. Whatever the text is, its phases come in order, and the setups that are shown as held agree.
    pub fn new(text: &'a [u8]) -> Answer<'a>
        ensures answers { to_come result ≡ answer text.now }
        ensures agreed { Agreed (proposals text.now) (answer text.now) }
    {
        let mut reader = Reader::new(text);
        let mut stage = match read_head(&mut reader) {
            Ok(head) => Stage::Working(Work::open(head)),
            Err(fault) => Stage::Faulty(fault),
        };
        seek(&mut reader, &mut stage);
        Answer { reader, stage }
    }

    // What is shown here, if anything is left.
    pub fn event(&self) -> Option<Event<'_>>
        ensures { option_map shown_as result ≡ first_of (to_come self.now) }
    {
        self.stage.event()
    }

    // Goes on to what is shown next.
    pub fn advance(&mut self)
        ensures { to_come self.new ≡ drop 1 (to_come self.old) }
    {
        leave(&mut self.reader, &mut self.stage);
    }
}

impl Stage {
    // Whether nothing is shown here, and more is to come.
    fn is_silent(&self) -> bool
        ensures { result ≡ silent self.now }
    {
        match self {
            Stage::Working(work) => work.is_silent(),
            _ => false,
        }
    }

    // What is shown here, if anything is.
    fn event(&self) -> Option<Event<'_>>
        ensures { option_map shown_as result ≡ here self.now }
    {
        match self {
            Stage::Working(work) => work.event(),
            Stage::Faulty(fault) => Some(Event::Fault(*fault)),
            Stage::Done => None,
        }
    }
}

// Goes on by one line, or to the end.
fn go_on(reader: &mut Reader<'_>, stage: &mut Stage)
    requires { within_limit stage.old reader.old.text.now ≡ true }
    ensures comes { coming stage.new reader.new ≡ ahead stage.old reader.old }
    ensures short { within_limit stage.new reader.new.text.now ≡ true }
    ensures progress { (steps stage.old reader.old ≡ 0) ⊎ (steps stage.new reader.new < steps stage.old reader.old) }
{
    match stage {
        Stage::Working(work) if !reader.at_end() => match work.read(reader) {
            Ok(()) => work.beat(),
            Err(fault) => *stage = Stage::Faulty(fault),
        },
        _ => *stage = Stage::Done,
    }
}

// Goes on until something is shown, or nothing is left.
#[tactic(auto, using(crate::proofs::Steps::turns))]
fn seek(reader: &mut Reader<'_>, stage: &mut Stage)
    requires { within_limit stage.old reader.old.text.now ≡ true }
    ensures comes { coming stage.new reader.new ≡ coming stage.old reader.old }
    ensures short { within_limit stage.new reader.new.text.now ≡ true }
    ensures shows { silent stage.new ≡ false }
{
    while stage.is_silent() {
        go_on(reader, stage);
    }
}

// Leaves what is shown here, and goes on until something is shown again, or nothing is left.
fn leave(reader: &mut Reader<'_>, stage: &mut Stage)
    requires { within_limit stage.old reader.old.text.now ≡ true }
    ensures comes { coming stage.new reader.new ≡ ahead stage.old reader.old }
    ensures short { within_limit stage.new reader.new.text.now ≡ true }
    ensures shows { silent stage.new ≡ false }
{
    go_on(reader, stage);
    seek(reader, stage);
}
