// Runs of the three procedures: what the boxes come to hold, worked out by hand.
use crate::asserts::assert_equal;
use crate::runs::{AT_THE_END, finish};
use crate::setups::card;
use crate::trios::{Trio, held, own, picked, said, voted};
use agreement::faults::RunFault;
use agreement::procedures::Procedure;
use agreement::runs::Run;
use agreement::slips::Slip;
use procedures::fast::Fast;
use procedures::latest::Latest;
use procedures::licence;
use procedures::observing::Observing;
use quorum::anchored::Anchored;
use quorum::majority::Majority;
use quorum::present::AllPresent;
use quorum::refusals::{Fault, Layer, RuleFault};
use quorum::rules::{ClearView, Rule};
use quorum::sets::BoxSet;
use quorum::sizes::Sizes;
use setup::cards::Card;
use setup::dated::DatedVote;
use std::test::Fail;

// How many boxes hold the setup.
fn holding(table: &[Slip<u32>], setup: u32) -> usize {
    table.iter().filter(|slip| slip.held == Some(setup)).count()
}

// Two phases in which all boxes hear the same: how many hold the setup after the first, and after both.
fn two_phases<P: Procedure<u32> + Drop>(
    procedure: P,
    proposals: &[u32],
    heard: BoxSet,
    setup: u32,
) -> Result<(usize, usize), RunFault> {
    let boxes = proposals.len().min(32);
    let table = &mut [Slip::opening(0); 32][..boxes];
    let sheet = &mut [Slip::opening(0); 32][..boxes];
    let heard = &[heard; 32][..boxes];
    let beats = procedure.beats();
    let mut run = Run::open(procedure, proposals, table)?;
    for _ in 0..beats {
        run.beat(table, sheet, heard)?;
    }
    let first = holding(table, setup);
    for _ in 0..beats {
        run.beat(table, sheet, heard)?;
    }
    Ok((first, holding(table, setup)))
}

// The same by Fast over a rule with a clear view, and by Observing and Latest over a rule.
fn all_three<C: ClearView + Drop, R: Rule + Copy + Drop>(
    clear: C,
    rule: R,
    proposals: &[u32],
    heard: BoxSet,
    setup: u32,
) -> Result<[(usize, usize); 3], RunFault> {
    Ok([
        two_phases(Fast::new(clear), proposals, heard, setup)?,
        two_phases(Observing::new(rule), proposals, heard, setup)?,
        two_phases(Latest::new(rule), proposals, heard, setup)?,
    ])
}

// The same over majority, thirds and anchored.
fn all_nine(
    proposals: &[u32],
    heard: BoxSet,
    setup: u32,
) -> Result<[[(usize, usize); 3]; 3], RunFault> {
    let majority = Majority::new(proposals.len())?;
    let thirds = Sizes::thirds(proposals.len())?;
    let anchored = Anchored::new(majority, 0)?;
    Ok([
        all_three(AllPresent::new(majority), majority, proposals, heard, setup)?,
        all_three(thirds, thirds, proposals, heard, setup)?,
        all_three(AllPresent::new(anchored), anchored, proposals, heard, setup)?,
    ])
}

const DOWN_FROM_40: [u32; 32] = [
    40, 39, 38, 37, 36, 35, 34, 33, 32, 31, 30, 29, 28, 27, 26, 25, 24, 23, 22, 21, 20, 19, 18, 17,
    16, 15, 14, 13, 12, 11, 10, 9,
];

// One box agrees with itself at once. Of several that propose different setups Latest holds the smallest after one phase, and the others after two.
#[test]
fn each_procedure_over_each_rule(rt: HostRuntime) -> Result<(), Fail> {
    for (proposals, heard, setup, fast, observing, latest) in [
        (&[7][..], 1, 7, (1, 1), (1, 1), (1, 1)),
        (&[7, 6], 3, 6, (0, 2), (0, 2), (2, 2)),
        (&[7, 5, 6], 7, 5, (0, 3), (0, 3), (3, 3)),
        (&[7, 5, 4, 6], 15, 4, (0, 4), (0, 4), (4, 4)),
        (&DOWN_FROM_40, BoxSet::MAX, 9, (0, 32), (0, 32), (32, 32)),
    ] {
        assert_equal(
            &rt,
            all_nine(proposals, heard, setup)?,
            [[fast, observing, latest]; 3],
        );
    }
    Ok(())
}

// Box 2, or box 3 of four, is off: nobody hears it, and it is taken to hear what box 0 hears. Its proposal does not count, and it comes to hold what the others hold.
#[test]
fn a_box_that_is_off(rt: HostRuntime) -> Result<(), Fail> {
    let (majority, thirds) = (Majority::new(3)?, Sizes::thirds(3)?);
    assert_equal(
        &rt,
        [
            two_phases(Observing::new(majority), &[5, 7, 1], 3, 5)?,
            two_phases(Latest::new(majority), &[5, 7, 1], 3, 5)?,
            // two heard are not clear
            two_phases(Fast::new(thirds), &[5, 7, 1], 3, 5)?,
            two_phases(Fast::new(Sizes::new(4, 3, 3)?), &[5, 7, 5, 1], 7, 5)?,
        ],
        [(0, 3), (3, 3), (0, 0), (0, 4)],
    );
    Ok(())
}

// A phase of Latest: own, then pick after its first beat, say after its second, and cast, news and held after its third, and last the dated votes.
fn phase(
    trio: &mut Trio<u32, Latest<Majority>>,
    heard: [[BoxSet; 3]; 3],
) -> Result<([u32; 3], [[Option<u32>; 3]; 5], [Option<DatedVote<u32>>; 3]), RunFault> {
    trio.work(&[heard[0]])?;
    let (own, pick) = picked(&trio.table);
    trio.work(&[heard[1]])?;
    let (say, dated) = said(&trio.table);
    let held = trio.work(&[heard[2]])?;
    let (cast, news) = voted(&trio.table);
    Ok((own, [pick, say, cast, news, held], dated))
}

// Boxes 0 and 1 vote for 5, and box 0 alone learns it. Box 2, which proposes 1, hears box 1 in the next phase: the vote for 5 counts, and not the smaller proposal.
#[test]
fn a_dated_vote_is_kept_to(rt: HostRuntime) -> Result<(), Fail> {
    let mut trio = Trio::open(Latest::new(Majority::new(3)?), [5, 7, 1], 0)?;
    let five = Some(5);
    assert_equal(
        &rt,
        phase(&mut trio, [[3, 3, 4], [3, 3, 4], [3, 2, 4]])?,
        (
            [5, 5, 1],
            [
                [five, five, None],
                [five, five, None],
                [five, five, None],
                [five, None, None],
                [five, None, None],
            ],
            [Some((0, 5)), Some((0, 5)), None],
        ),
    );
    assert_equal(
        &rt,
        phase(&mut trio, [[1, 6, 6], [1, 6, 6], [6, 6, 6]])?,
        (
            [5, 1, 1],
            [
                [None, five, five],
                [None, five, five],
                [None, five, five],
                [five; 3],
                [five; 3],
            ],
            [Some((0, 5)), Some((1, 5)), Some((1, 5))],
        ),
    );
    Ok(())
}

// Anchored on box 0, over the majority of three.
fn anchored() -> Result<Anchored<Majority>, RuleFault> {
    Anchored::new(Majority::new(3)?, 0)
}

// Observing waits for a quorum.
#[test]
fn observing_waits(rt: HostRuntime) -> Result<(), Fail> {
    let mut trio = Trio::open(Observing::new(anchored()?), [3, 1, 2], 0)?;
    for (heard, answer, owns) in [
        ([3, 5, 6], Some((8, 2)), [3, 1, 2]),
        ([3, 1, 5], Some((8, 1)), [3, 1, 2]),
        ([3, 9, 5], Some((7, 1)), [3, 1, 2]),
        ([3, 5, 7], None, [1, 2, 1]),
    ] {
        assert_equal(&rt, (trio.beat(&heard), own(&trio.table)), (answer, owns));
    }
    Ok(())
}

// Latest waits for nobody.
#[test]
fn latest_waits_for_nobody(rt: HostRuntime) -> Result<(), Fail> {
    let mut trio = Trio::open(Latest::new(anchored()?), [3, 1, 2], 0)?;
    assert_equal(
        &rt,
        [trio.beat(&[0, 8, 0]), trio.beat(&[0, 4, 6])],
        [Some((7, 1)), None],
    );
    assert_equal(&rt, picked(&trio.table), ([3, 2, 1], [None; 3]));
    Ok(())
}

// What the boxes hold after the beats.
fn agreed<P: Procedure<Card> + Drop>(
    procedure: P,
    proposals: &[Card; 3],
    beats: &[[BoxSet; 3]],
) -> Result<[Option<Card>; 3], RunFault> {
    let mut table = [Slip::opening(proposals[0]); 3];
    let mut sheet = [Slip::opening(proposals[0]); 3];
    let mut run = Run::open(procedure, proposals, &mut table)?;
    for heard in beats {
        run.beat(&mut table, &mut sheet, heard)?;
    }
    Ok(held(&table))
}

// A smaller ring comes first; then, of one ring, a smaller chainage.
#[test]
fn cards_are_agreed_on(rt: HostRuntime) -> Result<(), Fail> {
    let (majority, thirds) = (Majority::new(3)?, Sizes::thirds(3)?);
    let (first, second, third) = (card(7, -20, 1), card(7, 5, 1), card(8, -20, 1));
    let cards = &[third, second, first];
    assert_equal(
        &rt,
        [
            // box 2 is not heard in beat 0
            agreed(Latest::new(majority), cards, &[[3; 3], [7; 3], [7; 3]])?,
            agreed(Fast::new(thirds), cards, &[[7; 3], [7; 3]])?,
            agreed(
                Observing::new(majority),
                cards,
                &[[7; 3], [6; 3], [3; 3], [5; 3]],
            )?,
        ],
        [[Some(second); 3], [Some(first); 3], [Some(first); 3]],
    );
    Ok(())
}

// The refusal of the standard licence's opening, if it is declined, and the layer that declines it.
fn licence(boxes: usize, proposals: &[u32], table: &mut [Slip<u32>]) -> Option<(u8, usize, Layer)> {
    let fault = Fault::from(licence::open(boxes, proposals, table).err()?);
    Some((fault.refusal.number(), fault.place, fault.layer))
}

#[test]
fn licences_that_do_not_fit(rt: HostRuntime) {
    let mut table = [Slip::opening(0u32); 3];
    for (boxes, proposals, answer) in [
        (0, &[4, 2, 6][..], (1, 0, Layer::Rule)),
        (33, &[4, 2, 6], (1, 0, Layer::Rule)),
        (2, &[4, 2, 6], (5, 1, Layer::Run)),
        (4, &[4, 2, 6], (5, 1, Layer::Run)),
        (2, &[4, 2], (5, 2, Layer::Run)),
    ] {
        assert_equal(&rt, licence(boxes, proposals, &mut table), Some(answer));
    }
    assert_equal(&rt, own(&table), [0; 3]);
}

// A majority without the shaft's box 0 decides nothing under the standard licence.
#[test]
fn the_standard_licence(rt: HostRuntime) -> Result<(), Fail> {
    let mut table = [Slip::opening(0u32); 3];
    let run = licence::open(3, &[4, 2, 6], &mut table)?;
    let mut trio = Trio {
        run,
        table,
        sheet: [Slip::opening(0); 3],
    };
    assert_equal(
        &rt,
        [trio.work(&[[6; 3]; 3])?, trio.work(&[[5; 3]; 3])?],
        [[None; 3], [Some(2); 3]],
    );
    Ok(())
}

#[test]
fn the_last_phase_of_latest(rt: HostRuntime) -> Result<(), Fail> {
    let mut table = [Slip::opening(0)];
    let mut run = licence::open(1, &[4], &mut table)?;
    assert_equal(&rt, finish(&mut run, &mut table, 3 * 65_536)?, AT_THE_END);
    assert_equal(
        &rt,
        (table[0].dated, table[0].held),
        (Some((65_535, 4)), Some(4)),
    );
    Ok(())
}
