// The lines of a text in turn, each where it is the one due.
ghost use Rattle.std.specs.Prelude.{◌≡◌, ◌+◌, ◌∷◌, ◌++◌, length, is_ok, IfOk, if◌then◌else◌, ◌==◌};
ghost use Rattle.shift.specs.Entries.{after};
ghost use Rattle.shift.specs.Lines.{bytes_of, due, left, lines, span, unless_long};
ghost use Rattle.shift.specs.Told.{told};

use crate::faults::{Cause, TextFault};
use crate::line::Line;
use crate::parts::key_and_value;
use crate::reader::{LONGEST, Reader};

impl<'a> Reader<'a> {
    // A reader at the start of the text.
    pub fn new(text: &'a [u8]) -> Reader<'a>
        ensures text { result.text ≡ text.entry }
        ensures at { result.at ≡ 0 }
        ensures line { result.line ≡ 1 }
    {
        Reader {
            text,
            at: 0,
            line: 1,
        }
    }

    // Whether the whole text is read.
    pub fn at_end(&self) -> bool
        ensures { result ≡ (length (left self.now) == 0) }
    {
        self.rest().is_empty()
    }

    // What is left of the text.
    fn rest(&self) -> &'a [u8]
        ensures { result.now ≡ left self.now }
    {
        &self.text[self.at..]
    }

    // The next line, where it is the one due: it has the key, an equals sign and an end. Else nothing is read.
    // A text that is too long is declined before any of its lines is looked at.
    #[tactic(auto, using(crate::proofs::Cursor::reading))]
    pub fn due(&mut self, key: &[u8]) -> Result<Line<'a>, TextFault>
        ensures value { told bytes_of result ≡ unless_long self.old.text.now (due key.now self.old.line (left self.old)) }
        ensures parts { IfOk result (λ l. left self.old ≡ (l.key.now ++ 61 ∷ l.value.now) ++ 10 ∷ left self.new) }
        ensures rest { left self.new ≡ (if is_ok result then after (left self.old) else left self.old) }
        ensures text { self.new.text ≡ self.old.text }
        ensures at { self.new.at ≡ self.old.at + span result }
        ensures line { self.new.line ≡ self.old.line + lines result }
    {
        if self.text.len() > LONGEST {
            return Err(TextFault::at_line(Cause::Long, 1));
        }
        let other = TextFault::at_line(Cause::Key, self.line);
        let Some((found, value)) = key_and_value(self.rest()) else {
            return Err(other);
        };
        if found != key {
            return Err(other);
        }
        let number = self.line;
        self.at += found.len() + value.len() + 2;
        self.line += 1;
        Ok(Line {
            key: found,
            value,
            number,
        })
    }
}
