// A text in parts: before and after the first byte of a class, and the key and the value of a line.
ghost use Rattle.std.specs.Prelude.{◌≡◌, ◌+◌, ◌<◌, ◌≤◌, length, IfSome};
ghost use Rattle.shift.specs.Classes.{is};
ghost use Rattle.shift.specs.Entries.{key_and_value};
ghost use Rattle.shift.specs.Parts.{both, parted};
ghost use Rattle.std.specs.List.{position};
ghost use Rattle.std.specs.Option.{option_map};

use crate::classes::Class;

// The place of the first byte of the class.
fn first(text: &[u8], class: Class) -> Option<usize>
    ensures value { result ≡ position (is class) text.now }
    ensures within { IfSome result (λ i. i < length text.now) }
{
    text.iter().position(|b| class.has(*b))
}

// What stands before and after the first byte of the class.
pub(crate) fn split(text: &[u8], class: Class) -> Option<(&[u8], &[u8])>
    ensures value { option_map both result ≡ parted (is class) text.now }
    ensures len { IfSome result (λ p. length p.0.now + 1 + length p.1.now ≡ length text.now) }
{
    let i = first(text, class)?;
    Some((&text[0..i], &text[i + 1..]))
}

// The key and the value of the first line, where that has an end and an equals sign.
pub(crate) fn key_and_value(text: &[u8]) -> Option<(&[u8], &[u8])>
    ensures value { option_map both result ≡ key_and_value text.now }
    ensures len { IfSome result (λ p. length p.0.now + length p.1.now + 2 ≤ length text.now) }
{
    let (line, _) = split(text, Class::LineEnd)?;
    split(line, Class::Equals)
}
