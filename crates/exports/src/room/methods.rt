// Writing into room that is lent.
ghost use Rattle.std.specs.Prelude.{◌≡◌, ◌++◌, []};
ghost use Rattle.exports.specs.Rooms.{text_of};

use crate::room::Room;
use std::fmt;

impl<'a> Room<'a> {
    pub(crate) fn new(bytes: &'a mut [u8]) -> Room<'a>
        ensures text { text_of result ≡ [] }
        ensures lent { result.bytes.ghost_name ≡ bytes.entry.ghost_name }
    {
        Room { bytes, written: 0 }
    }

    pub(crate) fn written(&self) -> usize
        ensures { result ≡ self.now.written }
    {
        self.written
    }
}

impl fmt::Write for Room<'_> {
    ghost write_str_gives = { λ r bytes t. (text_of t ≡ text_of r ++ bytes) × (t.bytes.ghost_name ≡ r.bytes.ghost_name) };

    // What does not fit is not begun.
    fn write_str(&mut self, s: &str) -> fmt::Result {
        if s.len() > self.bytes.len() - self.written {
            return Err(fmt::Error);
        }
        let at = self.written;
        self.bytes[at..at + s.len()].copy_from_slice(s.as_bytes());
        self.written = at + s.len();
        Ok(())
    }
}
