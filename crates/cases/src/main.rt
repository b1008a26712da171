// Shifts and the answers that are expected of them: reads a file of cases, and names those that the answer differs from. A few more are worked out by the check.
#![tactic(auto)]

mod case;
mod entries;
mod faults;
mod tally;
mod worked;

use faults::FileFault;
use std::io;
use std::io::{BufWriter, Read, Write};
use tally::judge_all;
use worked::worked_shifts;

fn main(rt: HostRuntime) -> Result<(), FileFault> {
    let alloc = rt.alloc();
    let mut file = Vec::new(alloc);
    rt.stdin().read_to_end(&mut file)?;
    let mut out = BufWriter::new(alloc, io::writer(&rt))?;
    let count = judge_all(alloc, file.as_slice(), &mut out)?;
    let worked = worked_shifts();
    writeln!(out, "worked={worked} {count}")?;
    out.flush()?;
    Ok(())
}
