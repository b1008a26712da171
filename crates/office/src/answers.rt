// The answer to a shift's text, one thing after another.
ghost use Rattle.std.specs.Prelude.{◌≡◌, false, true};
ghost use Rattle.office.specs.Stages.{silent, within_limit};

use crate::work::Work;
use shift::faults::TextFault;
use shift::reader::Reader;

mod methods;

// How far the answer has come.
#[derive(Drop)]
enum Stage {
    // the run that the text asks for, and what its last beat shows
    Working(Work),
    // the fault that ends the reading
    Faulty(TextFault),
    // nothing is left to show
    Done,
}

// The text, as far as it is read, and what is shown at this place of the answer. Nothing is allocated.
#[derive(Drop)]
pub struct Answer<'a> {
    reader: Reader<'a>,
    stage: Stage,
    ghost short: { within_limit stage reader.text.now ≡ true },
    ghost shows: { silent stage ≡ false },
}
