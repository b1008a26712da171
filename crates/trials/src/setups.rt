// Kinds of setup, and the search at each.
use crate::asserts::assert_equal;
use setup::cards::Card;
use setup::orders::Setup;
use setup::search::{Optional, Plain, first};

const HERE: Card = Card {
    ring: 7,
    chainage: -1500,
    station: 2,
};

pub(crate) fn card(ring: u32, chainage: i32, station: u8) -> Card {
    Card {
        ring,
        chainage,
        station,
    }
}

#[test]
fn orders(rt: HostRuntime) {
    for (a, b, before) in [
        (3u32, 4, true),
        (4, 3, false),
        (4, 4, false),
        (0, u32::MAX, true),
    ] {
        assert_equal(&rt, a.comes_before(&b), before);
    }
    for (a, b, before) in [
        ((2, 4u32), (0, 9), true),
        ((0, 9), (2, 4), false),
        ((3, 4), (3, 9), true),
        ((3, 9), (3, 4), false),
        ((3, 4), (3, 4), false),
    ] {
        assert_equal(&rt, a.comes_before(&b), before);
    }
}

#[test]
fn cards_in_order(rt: HostRuntime) {
    assert!(rt; !HERE.comes_before(&HERE));
    for later in [
        card(8, -1500, 2),
        card(7, -1499, 2),
        card(7, 0, 2),
        card(7, -1500, 3),
        card(8, -9000, 0),
        card(7, 1500, 0),
    ] {
        assert!(rt; HERE.comes_before(&later));
        assert!(rt; !later.comes_before(&HERE));
    }
}

#[test]
fn search_at_numbers(rt: HostRuntime) {
    for (set, found) in [
        (0, None),
        (7, Some(1u32)),
        (5, Some(2)),
        (8, None),
        (0xffff_fff9, Some(3)),
    ] {
        assert_equal(&rt, first(&Plain, &[3, 1, 2], set), found);
    }
    for (set, found) in [
        (5, None),
        (2, Some(5u32)),
        (7, Some(5)),
        (u32::MAX, Some(5)),
    ] {
        assert_equal(&rt, first(&Optional, &[None, Some(5), None], set), found);
    }
    let mut long = [9u32; 40];
    long[31] = 8;
    long[32] = 1;
    assert_equal(&rt, first(&Plain, &long, u32::MAX), Some(8));
}

#[test]
fn search_at_cards_and_dated_votes(rt: HostRuntime) {
    let cards = [card(8, -9000, 0), card(7, 3, 9), card(7, -3, 9)];
    for (set, found) in [(3, 1), (7, 2), (1, 0), (5, 2)] {
        assert_equal(&rt, first(&Plain, &cards, set), Some(cards[found]));
    }
    let votes = [Some((0, 9u32)), Some((2, 4)), None, Some((2, 3))];
    for (set, found) in [
        (7, Some((2, 4u32))),
        (15, Some((2, 3))),
        (1, Some((0, 9))),
        (4, None),
        (0xffff_fff0, None),
    ] {
        assert_equal(&rt, first(&Optional, &votes, set), found);
    }
}
