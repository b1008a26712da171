// The reading of a text where no answer to a text shows it: the classes of bytes, a reader that reads on after a refusal, and faults that no text brings about.
use crate::asserts::assert_equal;
use agreement::faults::RunFault;
use quorum::refusals::Layer;
use shift::classes::{Class, classify};
use shift::faults::{Cause, Spot, TextFault};
use shift::forms::Form;
use shift::list::Numbers;
use shift::names::RuleName;
use shift::reader::Reader;
use std::test::Fail;

#[test]
fn classes(rt: HostRuntime) {
    for (b, class) in [
        (b'a', Class::Letter),
        (b'z', Class::Letter),
        (b'`', Class::Other),
        (b'{', Class::Other),
        (b'A', Class::Other),
        (b'0', Class::Digit),
        (b'9', Class::Digit),
        (b'/', Class::Other),
        (b':', Class::Other),
        (b'=', Class::Equals),
        (b',', Class::Comma),
        (10, Class::LineEnd),
        (13, Class::Other),
        (32, Class::Other),
        (0, Class::Other),
        (255, Class::Other),
    ] {
        assert_equal(&rt, classify(b), class);
    }
}

// What the next line is worth, if its key is the one due.
fn due<T: Form>(reader: &mut Reader<'_>, key: &[u8]) -> Result<T, TextFault> {
    reader.due(key)?.read()
}

// The numbers of the next line, which is to be a beat.
fn heard(reader: &mut Reader<'_>, list: &mut Numbers) -> Result<(), TextFault> {
    reader.due(b"beat")?.read_numbers(list)
}

fn fault(cause: Cause, line: usize, column: usize) -> TextFault {
    TextFault {
        cause,
        spot: Spot { line, column },
    }
}

// A refusal reads nothing, and leaves no numbers in a list.
#[test]
fn lines_in_turn(rt: HostRuntime) {
    let mut reader = Reader::new(b"boxes=2\nrule=thirds\nbeat=1,x\n");
    assert_equal(
        &rt,
        (
            reader.at_end(),
            due(&mut reader, b"rule"),
            due(&mut reader, b"boxes"),
        ),
        (false, Err::<u32, _>(fault(Cause::Key, 1, 1)), Ok(2u32)),
    );
    assert_equal(&rt, due(&mut reader, b"rule"), Ok(RuleName::Thirds));
    let mut list = Numbers::empty();
    let _ = list.push(7);
    assert_equal(
        &rt,
        (
            heard(&mut reader, &mut list),
            list.as_slice().is_empty(),
            reader.at_end(),
        ),
        (Err(fault(Cause::Value, 3, 6)), true, true),
    );
    assert_equal(
        &rt,
        due::<u32>(&mut reader, b"beat"),
        Err(fault(Cause::Key, 4, 1)),
    );
}

#[test]
fn printed_faults(rt: HostRuntime) -> Result<(), Fail> {
    let spot = Spot { line: 1, column: 7 };
    let placed = TextFault::from((RunFault::Wait(2), spot)).to_string(rt.alloc())?;
    assert_equal(
        &rt,
        placed.as_str(),
        "fault=8\nlayer=run\nplace=2\nline=1\ncolumn=7",
    );
    let book = Layer::Book.to_string(rt.alloc())?;
    assert_equal(&rt, book.as_str(), "book");
    Ok(())
}
