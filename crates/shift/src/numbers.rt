// A number in decimal digits.
ghost use Rattle.std.specs.Prelude.{◌≡◌, if◌then◌else◌, None};
ghost use Rattle.shift.specs.Classes.{digit};
ghost use Rattle.shift.specs.Numbers.{appended, fitting, led, number};

use crate::classes::{Class, classify};
use crate::forms::Form;

// The number with one more digit after it, where the byte is a digit and the number fits.
fn append(n: u32, b: u8) -> Option<u32>
    ensures { result ≡ (if digit b then fitting (appended n b) else None) }
{
    match classify(b) {
        Class::Digit => n.checked_mul(10)?.checked_add(u32::from(b - b'0')),
        _ => None,
    }
}

// Whether there is a byte, and no 0 before another.
fn is_led(value: &[u8]) -> bool
    ensures { result ≡ led value.now }
{
    match value {
        [] => false,
        [_] => true,
        [first, ..] => *first != b'0',
    }
}

// The number that the value writes: digits, without a leading 0, below 2^32. A function too, for a caller that names no type.
#[tactic(auto, using(crate::proofs::Decimal::reading))]
pub fn number(value: &[u8]) -> Option<u32>
    ensures { result ≡ number value.now }
{
    if !is_led(value) {
        return None;
    }
    let mut n = 0;
    for b in value {
        n = append(n, *b)?;
    }
    Some(n)
}

impl Form for u32 {
    ghost form = { number };

    fn read(value: &[u8]) -> Option<u32>
        ensures { result ≡ number value.now }
    {
        number(value)
    }
}
