// Sets of boxes, refusals, and the rules.
use crate::asserts::assert_equal;
use crate::refused;
use quorum::anchored::Anchored;
use quorum::majority::Majority;
use quorum::present::AllPresent;
use quorum::refusals::{Fault, Layer, Refusal, RuleFault};
use quorum::rules::{ClearView, Rule};
use quorum::sets;
use quorum::sets::BoxSet;
use quorum::sizes::Sizes;
use std::test::Fail;

// The number of the refusal, none where a rule is made.
fn refusal<R: Drop>(made: Result<R, RuleFault>) -> Option<u8> {
    Some(refused::refusal(made)?.0)
}

#[test]
fn sets_of_boxes(rt: HostRuntime) {
    for (set, i, inside) in [
        (5, 0, true),
        (5, 1, false),
        (5, 2, true),
        (u32::MAX, 31, true),
        (u32::MAX, 32, false),
        (u32::MAX, usize::MAX, false),
    ] {
        assert_equal(&rt, sets::contains(set, i), inside);
    }
    for (set, size) in [(0, 0), (5, 2), (0x8000_0000, 1), (u32::MAX, 32)] {
        assert_equal(&rt, sets::size(set), size);
    }
    for (set, n, fits) in [
        (0, 0, true),
        (1, 0, false),
        (7, 3, true),
        (8, 3, false),
        (u32::MAX, 31, false),
        (u32::MAX, 32, true),
        (u32::MAX, 33, true),
    ] {
        assert_equal(&rt, sets::fits(set, n), fits);
    }
    for (n, all) in [
        (0, 0),
        (1, 1),
        (31, 0x7fff_ffff),
        (32, u32::MAX),
        (33, u32::MAX),
    ] {
        assert_equal(&rt, sets::all_below(n), all);
    }
}

#[test]
fn faults_report(rt: HostRuntime) {
    for (fault, refusal, number) in [
        (RuleFault::Roster, Refusal::Roster, 1),
        (RuleFault::Size, Refusal::Size, 3),
        (RuleFault::NoBox, Refusal::NoBox, 4),
    ] {
        let layer = Layer::Rule;
        let place = 0;
        assert_equal(
            &rt,
            Fault::from(fault),
            Fault {
                refusal,
                layer,
                place,
            },
        );
        assert_equal(&rt, refusal.number(), number);
    }
}

#[test]
fn rosters(rt: HostRuntime) {
    for (boxes, number) in [
        (0, Some(1)),
        (1, None),
        (32, None),
        (33, Some(1)),
        (usize::MAX, Some(1)),
    ] {
        assert_equal(&rt, refusal(Majority::new(boxes)), number);
        assert_equal(&rt, refusal(Sizes::thirds(boxes)), number);
        assert_equal(&rt, refusal(Sizes::new(boxes, boxes, boxes)), number);
    }
}

#[test]
fn sizes_at_their_edges(rt: HostRuntime) {
    for (e, t, number) in [
        (3, 5, None),
        (3, 4, Some(3)),
        (4, 4, None),
        (5, 5, None),
        (5, 4, Some(3)),
        (4, 6, Some(3)),
        (6, 6, Some(3)),
        (0, 0, Some(3)),
        (usize::MAX, usize::MAX, Some(3)),
    ] {
        assert_equal(&rt, refusal(Sizes::new(5, e, t)), number);
    }
    for (n, e, t, number) in [
        (0, 9, 1, Some(1)),
        (1, 1, 1, None),
        (32, 22, 22, None),
        (32, 21, 22, Some(3)),
        (32, 17, 32, None),
        (32, 16, 32, Some(3)),
        (33, 1, 9, Some(1)),
    ] {
        assert_equal(&rt, refusal(Sizes::new(n, e, t)), number);
    }
}

// Whether the set is a quorum under the majority of so many boxes.
fn by_majority(n: usize, set: BoxSet) -> Result<bool, RuleFault> {
    Ok(Majority::new(n)?.is_quorum(set))
}

// Whether the set is a quorum under the rule, and whether it is clear.
fn by_sizes(made: Result<Sizes, RuleFault>, set: BoxSet) -> Result<(bool, bool), RuleFault> {
    let rule = made?;
    Ok((rule.is_quorum(set), rule.is_clear(set)))
}

#[test]
fn quorums_by_count(rt: HostRuntime) {
    for (n, set, quorum) in [
        (1, 0, false),
        (1, 1, true),
        (1, 2, false),
        (3, 3, true),
        (3, 4, false),
        (3, 11, false),
        (32, 0xffff, false),
        (32, 0x1_ffff, true),
    ] {
        assert_equal(&rt, by_majority(n, set), Ok(quorum));
    }
    for (n, set, quorum) in [
        (1, 1, true),
        (2, 1, false),
        (2, 3, true),
        (3, 3, false),
        (3, 7, true),
        (4, 7, true),
        (4, 3, false),
        (4, 23, false),
        (32, 0x3f_ffff, true),
        (32, 0x1f_ffff, false),
    ] {
        assert_equal(&rt, by_sizes(Sizes::thirds(n), set), Ok((quorum, quorum)));
    }
    for (set, quorum, clear) in [(15, true, false), (21, true, false), (31, true, true)] {
        assert_equal(&rt, by_sizes(Sizes::new(5, 3, 5), set), Ok((quorum, clear)));
    }
}

// A majority of three that contains the anchor.
fn anchored(anchor: usize) -> Result<Anchored<Majority>, RuleFault> {
    Anchored::new(Majority::new(3)?, anchor)
}

// Anchored on boxes 0 and 1, over the majority of three.
fn twice_anchored() -> Result<Anchored<Anchored<Majority>>, RuleFault> {
    Anchored::new(anchored(0)?, 1)
}

// Whether the set is a quorum under it, and under all-present over it, and whether it is clear there.
fn layered(set: BoxSet) -> Result<(bool, bool, bool), RuleFault> {
    let rule = twice_anchored()?;
    let present = AllPresent::new(rule);
    Ok((
        rule.is_quorum(set),
        present.is_quorum(set),
        present.is_clear(set),
    ))
}

// Whether the set is clear under all-present over the majority of 32.
fn all_of_32(set: BoxSet) -> Result<bool, RuleFault> {
    Ok(AllPresent::new(Majority::new(32)?).is_clear(set))
}

#[test]
fn layered_rules(rt: HostRuntime) {
    for (anchor, number) in [(0, None), (2, None), (3, Some(4)), (usize::MAX, Some(4))] {
        assert_equal(&rt, refusal(anchored(anchor)), number);
    }
    for (set, quorum, clear) in [
        (3, true, false),
        (5, false, false),
        (6, false, false),
        (7, true, true),
        (11, false, false),
        (15, false, false),
    ] {
        assert_equal(&rt, layered(set), Ok((quorum, quorum, clear)));
    }
    assert_equal(
        &rt,
        [all_of_32(u32::MAX), all_of_32(u32::MAX - 1)],
        [Ok(true), Ok(false)],
    );
}

// How many boxes a rule has that is made of others.
#[test]
fn boxes_of_rules(rt: HostRuntime) -> Result<(), Fail> {
    assert_equal(
        &rt,
        [
            Sizes::new(5, 3, 5)?.boxes(),
            AllPresent::new(twice_anchored()?).boxes(),
        ],
        [5, 3],
    );
    Ok(())
}
