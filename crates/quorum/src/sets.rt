// Sets of boxes: a number whose bit i stands for box i.
ghost use Rattle.std.specs.Prelude.{◌≡◌, ◌≤◌, min, Decides, if◌then◌else◌, nat_lt};
ghost use Rattle.quorum.specs.Sets.{has, added as added_to, count, tally, everyone, within, AllBelow, NoneAbove};

pub type BoxSet = u32;

// The most boxes that a roster can have: a set has a bit for each.
pub const MAX_BOXES: usize = 32;

// Whether box `i` is in the set.
pub fn contains(set: BoxSet, i: usize) -> bool
    ensures { result ≡ has set i }
{
    i < MAX_BOXES && (set >> i) % 2 == 1
}

// How many boxes the set has.
#[tactic(auto, using(crate::proofs::Tallies::size_tally))]
pub fn size(set: BoxSet) -> usize
    ensures value { result ≡ count set }
    ensures boxes { result ≡ tally (has set) 32 }
    ensures bound { result ≤ 32 }
{
    // at most 32
    set.count_ones() as usize
}

// The set of all boxes below `n`.
fn below(n: usize) -> BoxSet
    requires { n ≤ 32 }
    ensures value { result ≡ everyone n }
    ensures boxes { AllBelow n result }
{
    if n == MAX_BOXES {
        BoxSet::MAX
    } else {
        (1 << n) - 1
    }
}

// The set of all boxes below `n`; a set has no box past 31.
pub fn all_below(n: usize) -> BoxSet
    ensures value { result ≡ everyone (min n 32) }
    ensures boxes { AllBelow (min n 32) result }
{
    below(n.min(MAX_BOXES))
}

// Whether the set has no box at `n` or above: then it is no greater, as a number, than that of all boxes below.
pub fn fits(set: BoxSet, n: usize) -> bool
    ensures value { result ≡ within n set }
    ensures boxes { Decides result (NoneAbove n set) }
{
    set <= all_below(n)
}

// The set with box `i` added; a set has no box past 31.
pub fn added(set: BoxSet, i: usize) -> BoxSet
    ensures { result ≡ (if nat_lt i 32 then added_to set i else set) }
{
    if i < MAX_BOXES { set | 1 << i } else { set }
}
