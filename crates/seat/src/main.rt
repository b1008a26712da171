// The seat: reads a shift's text from standard input, and prints who voted for what.
#![tactic(auto)]

use office::printouts::Printout;
use shift::reader::LONGEST;
use std::io;
use std::io::Read;

// One byte more than a text can have; a `u64` holds every `usize`.
const ENOUGH: u64 = LONGEST as u64 + 1;

fn main(rt: HostRuntime) -> io::Result<()> {
    let mut text = Vec::new(rt.alloc());
    rt.stdin().take(ENOUGH).read_to_end(&mut text)?;
    let printout = Printout::new(text.as_slice());
    print!(rt; "{printout}")
}
