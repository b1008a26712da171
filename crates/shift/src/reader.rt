// A cursor that reads the lines of a text in turn.
ghost use Rattle.std.specs.Prelude.{◌+◌, ◌≤◌, length};

mod methods;

// The most bytes that a text can have.
pub const LONGEST: usize = 32768;

// The text, how many of its bytes are read, and the number of the line that comes next, from 1.
// The whole text and a cursor, and not what is left of it alone: contracts state the place of each part.
#[derive(Drop)]
pub struct Reader<'a> {
    text: &'a [u8],
    at: usize,
    line: usize,
    ghost within: { at ≤ length text.now },
    ghost counted: { line ≤ at + 1 },
}
