// Runs of Unison: what their calls answer, and what table, sheet and clock then hold.
use crate::asserts::assert_equal;
use crate::refused::refusal;
use crate::setups::card;
use crate::trios::{Trio, held, own};
use crate::unison::Unison;
use agreement::clocks::Clock;
use agreement::faults::RunFault;
use agreement::procedures::Procedure;
use agreement::runs::Run;
use agreement::slips::Slip;
use book::books::Book;
use quorum::anchored::Anchored;
use quorum::majority::Majority;
use setup::cards::Card;
use std::test::Fail;

// A run of three boxes.
fn opened(
    proposals: &[u32],
    table: &mut [Slip<u32>],
) -> Result<Run<u32, Unison<Majority>>, RunFault> {
    let rule = Majority::new(3)?;
    Run::open(Unison { rule }, proposals, table)
}

// What its opening is declined with.
fn opening(proposals: &[u32], table: &mut [Slip<u32>]) -> Option<(u8, usize)> {
    refusal(opened(proposals, table))
}

#[test]
fn openings_that_do_not_fit(rt: HostRuntime) {
    let nine = Slip {
        held: Some(9),
        ..Slip::opening(9)
    };
    let mut three = [nine; 3];
    let mut two = [nine; 2];
    assert_equal(
        &rt,
        [
            opening(&[5, 2], &mut two),
            opening(&[5, 2, 7], &mut two),
            opening(&[5, 2], &mut three),
        ],
        [Some((5, 1)), Some((5, 2)), Some((5, 1))],
    );
    assert_equal(&rt, (two[0].own, own(&three)), (9, [9; 3]));
    assert_equal(&rt, opening(&[5, 2, 7], &mut three), None);
    assert_equal(&rt, (own(&three), held(&three)), ([5, 2, 7], [None; 3]));
}

#[test]
fn beats_of_three(rt: HostRuntime) -> Result<(), Fail> {
    let rule = Majority::new(3)?;
    let mut trio = Trio::open(Unison { rule }, [5, 2, 7], 0)?;
    for (heard, answer, phase, owns, holds, former) in [
        (
            &[7, 7, 6][..],
            Some((8, 2)),
            0,
            [5, 2, 7],
            [None; 3],
            [0; 3],
        ),
        (&[7, 15, 6], Some((7, 1)), 0, [5, 2, 7], [None; 3], [0; 3]),
        (&[0, 8, 16], Some((7, 1)), 0, [5, 2, 7], [None; 3], [0; 3]),
        (&[8, 0], Some((5, 3)), 0, [5, 2, 7], [None; 3], [0; 3]),
        (&[7, 7, 7], None, 1, [2; 3], [Some(2); 3], [5, 2, 7]),
    ] {
        assert_equal(
            &rt,
            (trio.beat(heard), trio.run.due()),
            (answer, Clock { phase, beat: 0 }),
        );
        assert_equal(
            &rt,
            (own(&trio.table), held(&trio.table), own(&trio.sheet)),
            (owns, holds, former),
        );
    }
    Ok(())
}

#[test]
fn tables_that_do_not_fit(rt: HostRuntime) -> Result<(), Fail> {
    let mut table = [Slip::opening(0); 3];
    let mut sheet = [Slip::opening(0); 3];
    let mut two = [Slip::opening(0); 2];
    let mut run = opened(&[5, 2, 7], &mut table)?;
    assert_equal(
        &rt,
        [
            refusal(run.beat(&mut two, &mut sheet, &[7, 7, 7])),
            refusal(run.beat(&mut table, &mut two, &[7, 7])),
            refusal(run.read(&two, 2)),
            refusal(run.read(&two, 3)),
        ],
        [Some((5, 1)), Some((5, 2)), Some((5, 1)), Some((4, 0))],
    );
    Ok(())
}

// What box `i` stands for and holds, or else what its reading is declined with.
fn read(
    run: &Run<u32, Unison<Majority>>,
    table: &[Slip<u32>],
    i: usize,
) -> Result<(u32, Option<u32>), RunFault> {
    let slip = run.read(table, i)?;
    Ok((slip.own, slip.held))
}

#[test]
fn reads(rt: HostRuntime) -> Result<(), Fail> {
    let mut trio = Trio::open(
        Unison {
            rule: Majority::new(3)?,
        },
        [5, 2, 7],
        0,
    )?;
    assert_equal(&rt, read(&trio.run, &trio.table, 2), Ok((7, None)));
    assert_equal(&rt, trio.beat(&[7; 3]), None);
    for (i, answer) in [
        (0, Ok((2, Some(2)))),
        (2, Ok((2, Some(2)))),
        (3, Err(RunFault::NoBox)),
        (usize::MAX, Err(RunFault::NoBox)),
    ] {
        assert_equal(&rt, read(&trio.run, &trio.table, i), answer);
    }
    Ok(())
}

// What the calls of a run answer that is finished: the clock, and what is declined where box 0 of one hears itself, nobody, or a stranger, and where no heard set is given.
type Finished = (Clock, [Option<(u8, usize)>; 4]);

pub(crate) const AT_THE_END: Finished = (
    Clock {
        phase: 65_536,
        beat: 0,
    },
    [Some((6, 0)), Some((6, 0)), Some((6, 0)), Some((5, 3))],
);

// Gives a run of one box so many beats, and then says what its calls answer.
pub(crate) fn finish<P: Procedure<u32>>(
    run: &mut Run<u32, P>,
    table: &mut [Slip<u32>],
    beats: u32,
) -> Result<Finished, RunFault> {
    let mut sheet = [Slip::opening(0)];
    for _ in 0..beats {
        run.beat(table, &mut sheet, &[1])?;
    }
    let answers = [
        refusal(run.beat(table, &mut sheet, &[1])),
        refusal(run.beat(table, &mut sheet, &[0])),
        refusal(run.beat(table, &mut sheet, &[2])),
        refusal(run.beat(table, &mut sheet, &[])),
    ];
    Ok((run.due(), answers))
}

#[test]
fn the_last_phase(rt: HostRuntime) -> Result<(), Fail> {
    let rule = Majority::new(1)?;
    let mut table = [Slip::opening(0)];
    let mut run = Run::open(Unison { rule }, &[4], &mut table)?;
    assert_equal(&rt, finish(&mut run, &mut table, 65_536)?, AT_THE_END);
    assert_equal(&rt, run.read(&table, 0)?.held, Some(4));
    Ok(())
}

// Works a phase in which both hear both, and enters it into the book: their votes, what the row is declined with, and how many rows are then written.
fn enter(
    run: &mut Run<Card, Unison<Anchored<Majority>>>,
    table: &mut [Slip<Card>; 2],
    sheet: &mut [Slip<Card>; 2],
    book: &mut Book<'_, Card>,
) -> Result<([Option<Card>; 2], Option<(u8, usize)>, usize), RunFault> {
    run.beat(table, sheet, &[3, 3])?;
    let votes = [table[0].cast, table[1].cast];
    let decisions = [table[0].news, table[1].news];
    let answer = refusal(book.enter(&run.procedure().rule, &votes, &decisions));
    Ok((votes, answer, book.written()))
}

#[test]
fn cards_and_their_book(rt: HostRuntime) -> Result<(), Fail> {
    let rule = Anchored::new(Majority::new(2)?, 1)?;
    let later = card(8, -4, 1);
    let sooner = card(7, 12, 3);
    let mut table = [Slip::opening(later); 2];
    let mut sheet = [Slip::opening(later); 2];
    let mut list = [None; 4];
    let mut book = Book::new(&rule, &mut list);
    let mut run = Run::open(Unison { rule }, &[later, sooner], &mut table)?;
    for rows in 1..3 {
        assert_equal(
            &rt,
            enter(&mut run, &mut table, &mut sheet, &mut book)?,
            ([Some(sooner); 2], None, rows),
        );
    }
    Ok(())
}
