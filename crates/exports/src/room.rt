// Room for a text, and how much of it is written.
ghost use Rattle.std.specs.Prelude.{◌≤◌, length};

mod methods;

#[derive(Drop)]
pub(crate) struct Room<'a> {
    bytes: &'a mut [u8],
    written: usize,
    ghost within: { written ≤ length bytes.now },
}
