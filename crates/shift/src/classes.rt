// The classes that the text's bytes fall into.
ghost use Rattle.std.specs.Prelude.{◌≡◌, true};
ghost use Rattle.shift.specs.Classes.{class, is};

#[derive(Clone, Copy, Debug, PartialEq)]
pub enum Class {
    Letter,
    Digit,
    Equals,
    Comma,
    LineEnd,
    Other,
}

// The class of a byte.
pub fn classify(b: u8) -> Class
    ensures value { result ≡ class b }
    ensures test { is result b ≡ true }
{
    match char::from(b) {
        'a'..='z' => Class::Letter,
        '0'..='9' => Class::Digit,
        '=' => Class::Equals,
        ',' => Class::Comma,
        '\n' => Class::LineEnd,
        _ => Class::Other,
    }
}

impl Class {
    // Whether the byte is of the class.
    pub(crate) fn has(self, b: u8) -> bool
        ensures { result ≡ is self b }
    {
        classify(b) == self
    }
}
