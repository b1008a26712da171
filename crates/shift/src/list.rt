// A list of at most 32 numbers, held in place.
ghost use Rattle.std.specs.Prelude.{◌≡◌, ◌≤◌, length};

use quorum::sets::MAX_BOXES;

mod methods;

// The most numbers that a list can have: one for each box.
const ROOM: usize = MAX_BOXES;

// An `ArrayVec` would hold the numbers too, but is not `Copy`, as this list is for its callers.
#[derive(Clone, Copy)]
pub struct Numbers {
    items: [u32; ROOM],
    count: usize,
    ghost len: { length items ≡ 32 },
    ghost room: { count ≤ 32 },
}
