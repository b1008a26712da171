// The whole answer to a shift, as the lines that the office reads.
ghost use Rattle.std.specs.Prelude.{◌≡◌, Some};
ghost use Rattle.office.specs.Answers.{answer};
ghost use Rattle.office.specs.Printed.{printed};

use crate::answers::Answer;
use std::fmt;
use std::fmt::Display;

// A shift's text, printed as the answer to it.
#[derive(Clone, Copy)]
pub struct Printout<'a> {
    text: &'a [u8],
}

impl<'a> Printout<'a> {
    pub fn new(text: &'a [u8]) -> Printout<'a>
        ensures { result.text ≡ text.entry }
    {
        Printout { text }
    }
}

// Each thing that is shown in lines of its own. Nothing is allocated.
impl fmt::Display for Printout<'_> {
    ghost output = { λ printout. Some (printed (answer printout.text.now)) };

    #[tactic(auto, using(crate::proofs::Printing::turns))]
    fn fmt<W: fmt::Write>(&self, f: &mut fmt::Formatter<W>) -> fmt::Result {
        let mut answer = Answer::new(self.text);
        while let Some(event) = answer.event() {
            event.fmt(f)?;
            f.write_str("\n")?;
            answer.advance();
        }
        Ok(())
    }
}
