// What a line of a file of cases says, by its first byte.
use shift::numbers::number;

#[derive(Clone, Copy)]
pub(crate) enum Entry<'a> {
    // an empty line, or a comment
    Nothing,
    // a case begins, with its name
    Name(&'a [u8]),
    // a line of its text
    Line(&'a [u8]),
    // bytes of its text without a line end
    Bytes(&'a [u8]),
    // one byte of its text by its number
    Byte(u8),
    // a line of its text so many times
    Repeated(u32, &'a [u8]),
    // a line of the answer that is expected
    Expected(&'a [u8]),
}

// What the line says, if it is of a kind.
pub(crate) fn parse(line: &[u8]) -> Option<Entry<'_>> {
    let Some((first, rest)) = line.split_first() else {
        return Some(Entry::Nothing);
    };
    match *first {
        b'#' => Some(Entry::Nothing),
        b'=' => Some(Entry::Name(rest)),
        b'<' => Some(Entry::Line(rest)),
        b'-' => Some(Entry::Bytes(rest)),
        b'!' => byte(rest),
        b'*' => repeated(rest),
        b'>' => Some(Entry::Expected(rest)),
        _ => None,
    }
}

// A byte by its number.
fn byte(rest: &[u8]) -> Option<Entry<'_>> {
    Some(Entry::Byte(u8::try_from(number(rest)?).ok()?))
}

// How many times, and after a space the line.
fn repeated(rest: &[u8]) -> Option<Entry<'_>> {
    let end = rest.iter().position(|b| *b == b' ')?;
    Some(Entry::Repeated(number(&rest[..end])?, &rest[end + 1..]))
}
