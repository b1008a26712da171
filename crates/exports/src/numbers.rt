// The numbers that ask for a rule.

#[repr(C)]
#[derive(Clone, Copy)]
pub struct RuleNumbers {
    // N
    pub(crate) boxes: usize,
    // 0 is majority, 1 more than two thirds, and every other number sizes
    pub(crate) base: u32,
    // of sizes: how many boxes are a quorum, and how many are clear
    pub(crate) quorum: usize,
    pub(crate) clear: usize,
    // 0 is the rule itself, and every other number the rule anchored on a box
    pub(crate) anchored: u32,
    // the box, where it is anchored
    pub(crate) anchor: usize,
}
