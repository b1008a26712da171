// The cases of a file in turn, and how many there are.
ghost use Rattle.std.specs.Prelude.{◌≡◌, ◌<◌, ◌≤◌, IfSome, None, OnOk, false, true};
ghost use Rattle.cases.specs.Judging.{right as comes_out};

use crate::case::Case;
use crate::entries::{Entry, parse};
use crate::faults::FileFault;
use std::alloc::Global;
use std::io::Write;
use std::{fmt, io};

// How many cases were judged, and how many of them differ.
#[derive(Clone, Copy)]
pub(crate) struct Count {
    cases: usize,
    differing: usize,
}

impl Count {
    // The count with one case more, which came out as expected or not.
    fn with(self, right: bool) -> Count
        ensures right { right ≡ true → result.differing ≡ self.differing }
        ensures wrong { right ≡ false → (self.differing ≤ result.differing) × (0 < result.differing) }
    {
        Count {
            cases: self.cases.saturating_add(1),
            differing: self.differing.saturating_add(usize::from(!right)),
        }
    }
}

impl fmt::Display for Count {
    fn fmt<W: fmt::Write>(&self, f: &mut fmt::Formatter<W>) -> fmt::Result {
        let cases = self.cases;
        let differing = self.differing;
        write!(f, "cases={cases} differing={differing}")
    }
}

// The count so far, and the case that is being read, if one has begun.
#[derive(Drop)]
struct Tally {
    count: Count,
    current: Option<Case>,
}

impl Tally {
    // A tally of no case.
    fn new() -> Tally {
        let count = Count {
            cases: 0,
            differing: 0,
        };
        Tally {
            count,
            current: None,
        }
    }

    // Judges the case that has been read, if there is one.
    fn close<W: Write>(&mut self, alloc: Global, out: &mut W) -> io::Result<()>
        ensures done { self.new.current ≡ None }
        ensures kept { OnOk result (self.old.count.differing ≤ self.new.count.differing) }
        ensures counts { OnOk result (IfSome self.old.current (λ c. comes_out c ≡ false → 0 < self.new.count.differing)) }
    {
        let Some(case) = self.current.take() else {
            return Ok(());
        };
        self.count = self.count.with(case.judge(alloc, out)?);
        Ok(())
    }

    // Judges the case before, and begins one of this name.
    fn begin<W: Write>(&mut self, alloc: Global, name: &[u8], out: &mut W) -> io::Result<()> {
        self.close(alloc, out)?;
        self.current = Some(Case::new(alloc, name)?);
        Ok(())
    }

    // Takes the line of this number.
    fn take<W: Write>(
        &mut self,
        alloc: Global,
        number: usize,
        line: &[u8],
        out: &mut W,
    ) -> Result<(), FileFault> {
        let entry = parse(line).ok_or(FileFault::Unknown(number))?;
        match entry {
            Entry::Nothing => {},
            Entry::Name(name) => self.begin(alloc, name, out)?,
            more => {
                let Some(case) = &mut self.current else {
                    return Err(FileFault::Stray(number));
                };
                case.add(more)?;
            },
        }
        Ok(())
    }
}

// Judges each case of the file, and writes of each that differs what was expected and what came.
pub(crate) fn judge_all<W: Write>(
    alloc: Global,
    file: &[u8],
    out: &mut W,
) -> Result<Count, FileFault> {
    let mut tally = Tally::new();
    for (i, line) in file.split(|b| *b == b'\n').enumerate() {
        tally.take(alloc, i.saturating_add(1), line, out)?;
    }
    tally.close(alloc, out)?;
    Ok(tally.count)
}
