// The book: rows that it takes, and rows that it declines.
use crate::asserts::assert_equal;
use crate::refused::refusal;
use book::books::Book;
use quorum::majority::Majority;
use std::test::Fail;

// What the row is declined with, none where it is taken, and how many rows are then written.
fn enter(
    book: &mut Book<'_, u32>,
    rule: &Majority,
    votes: &[Option<u32>],
    decisions: &[Option<u32>],
) -> (Option<(u8, usize)>, usize) {
    let answer = refusal(book.enter(rule, votes, decisions));
    (answer, book.written())
}

// A list for two rows of three boxes, and one vote over.
#[test]
fn a_book_of_three(rt: HostRuntime) -> Result<(), Fail> {
    let rule = Majority::new(3)?;
    let mut list = [None; 7];
    let mut book = Book::new(&rule, &mut list);
    assert_equal(&rt, book.rows(), 2);
    let five = Some(5);
    let six = Some(6);
    for (votes, decisions, answer, written) in [
        ([five, five, None], [None, six, None], Some((11, 1)), 0),
        ([five, None, None], [five, None, None], Some((11, 0)), 0),
        ([five, five, None], [None, None, five], None, 1),
        ([six, None, None], [None; 3], Some((10, 0)), 1),
        ([None, six, six], [None; 3], Some((10, 1)), 1),
        ([None, None, six], [None; 3], None, 2),
        ([None; 3], [None; 3], Some((9, 0)), 2),
    ] {
        assert_equal(
            &rt,
            enter(&mut book, &rule, &votes, &decisions),
            (answer, written),
        );
    }
    Ok(())
}

#[test]
fn calls_that_do_not_fit(rt: HostRuntime) -> Result<(), Fail> {
    let rule = Majority::new(3)?;
    let other = Majority::new(4)?;
    let mut list = [None; 2];
    let mut book = Book::new(&rule, &mut list);
    assert_equal(&rt, book.rows(), 0);
    assert_equal(
        &rt,
        [
            enter(&mut book, &other, &[None; 4], &[None; 2]),
            enter(&mut book, &rule, &[None; 4], &[None; 2]),
            enter(&mut book, &rule, &[None; 3], &[None; 2]),
            enter(&mut book, &rule, &[None; 3], &[None; 3]),
        ],
        [
            (Some((2, 0)), 0),
            (Some((5, 1)), 0),
            (Some((5, 2)), 0),
            (Some((9, 0)), 0),
        ],
    );
    Ok(())
}
