// A case: a shift's text, and the answer that is expected of it.
ghost use Rattle.std.specs.Prelude.{◌≡◌, ◌++◌, ◌∷◌, [], IfOk, OnOk};
ghost use Rattle.cases.specs.Judging.{right};

use crate::entries::Entry;
use office::printouts::Printout;
use std::alloc::{AllocError, Global};
use std::io;
use std::io::Write;

#[derive(Drop)]
pub(crate) struct Case {
    name: Vec<u8>,
    text: Vec<u8>,
    expected: Vec<u8>,
}

// The bytes and a line end, after what is there.
fn add_line(bytes: &mut Vec<u8>, line: &[u8]) -> Result<(), AllocError>
    ensures { OnOk result (bytes.new.items ≡ bytes.old.items ++ line.now ++ 10 ∷ []) }
{
    bytes.extend_from_slice(line)?;
    bytes.push(b'\n')?;
    Ok(())
}

// The same line so many times.
fn add_lines(bytes: &mut Vec<u8>, times: u32, line: &[u8]) -> Result<(), AllocError> {
    for _i in 0..times {
        add_line(bytes, line)?;
    }
    Ok(())
}

impl Case {
    // A case with an empty text, of which no line is expected.
    pub(crate) fn new(alloc: Global, name: &[u8]) -> Result<Case, AllocError> {
        Ok(Case {
            name: name.to_vec(alloc)?,
            text: Vec::new(alloc),
            expected: Vec::new(alloc),
        })
    }

    // What a line of the file adds to the case.
    pub(crate) fn add(&mut self, entry: Entry<'_>) -> Result<(), AllocError>
        ensures { self.new.name ≡ self.old.name }
    {
        match entry {
            Entry::Line(line) => add_line(&mut self.text, line),
            Entry::Bytes(bytes) => self.text.extend_from_slice(bytes),
            Entry::Byte(byte) => Ok(self.text.push(byte)?),
            Entry::Repeated(times, line) => add_lines(&mut self.text, times, line),
            Entry::Expected(line) => add_line(&mut self.expected, line),
            Entry::Nothing | Entry::Name(_) => Ok(()),
        }
    }

    // Whether the answer is the one that is expected; where it is not, both are written.
    pub(crate) fn judge<W: Write>(&self, alloc: Global, out: &mut W) -> io::Result<bool>
        ensures { IfOk result (λ b. b ≡ right self.now) }
    {
        let answer = Printout::new(self.text.as_slice()).to_string(alloc)?;
        let right = answer.as_bytes() == self.expected.as_slice();
        if !right {
            self.show(answer.as_bytes(), out)?;
        }
        Ok(right)
    }

    // The case's name, what was expected, and what came.
    fn show<W: Write>(&self, answer: &[u8], out: &mut W) -> io::Result<()> {
        out.write_all(self.name.as_slice())?;
        out.write_all(b"\nexpected:\n")?;
        out.write_all(self.expected.as_slice())?;
        out.write_all(b"came:\n")?;
        out.write_all(answer)
    }
}
