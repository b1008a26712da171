// What the calls lend to the library, and how it is written back: slips and entries of their own.
ghost use Rattle.std.specs.Prelude.{◌≡◌, ◌≤◌, ◌++◌, drop, length, map, min, replicate, take};
ghost use Rattle.agreement.specs.Slips.{opening};
ghost use Rattle.exports.specs.Flat.{flat_slip};
ghost use Rattle.exports.specs.Kept.{entries_of};

use crate::flat::FlatSlip;
use crate::put::put;
use agreement::slips::Slip;

// How many slips a run can be lent: some more than the largest roster has, so that too many can be lent.
pub(crate) const ROOM: usize = 40;

// Slips before an opening.
pub(crate) fn blank() -> [Slip<u32>; ROOM]
    ensures { result ≡ replicate 40 (opening 0) }
{
    [Slip::opening(0); ROOM]
}

// Writes the slips over the front of what is lent.
pub(crate) fn tell(slips: &[Slip<u32>], lent: &mut [FlatSlip])
    requires { length slips.now ≤ length lent.old }
    ensures { lent.new ≡ map flat_slip slips.now ++ drop (length slips.now) lent.old }
{
    put(slips, &mut lent[..slips.len()]);
}

// How many entries a book can be lent, and how many votes and decisions can be given.
const ENTRIES: usize = 2048;

// Entries before anything is read into them: what they hold then nobody sees.
pub(crate) fn blank_entries() -> [Option<u32>; ENTRIES] {
    [None; ENTRIES]
}

// Reads the numbers into the entries, as many as there are.
pub(crate) fn read_entries(numbers: &[u64], entries: &mut [Option<u32>; ENTRIES]) -> usize
    ensures number { result ≡ min (length numbers.now) 2048 }
    ensures entries { take result entries.new ≡ entries_of numbers.now }
{
    let n = numbers.len().min(ENTRIES);
    put(&numbers[..n], &mut entries[..n]);
    n
}
