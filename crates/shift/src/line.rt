// A line in its parts, and its value by the form that it is to have.
ghost use Rattle.std.specs.Prelude.{◌≡◌, [], false, is_ok};
ghost use Rattle.shift.specs.Faults.{no_value};
ghost use Rattle.shift.specs.Lines.{spot_of};
ghost use Rattle.shift.specs.Lists.{listed, numbers};
ghost use Rattle.shift.specs.Told.{told};
ghost use Rattle.std.specs.Option.{ok_or};

use crate::faults::{Cause, Spot, TextFault};
use crate::forms::Form;
use crate::list::Numbers;

// The bytes before and after the first equals sign, and the number of the line.
#[derive(Clone, Copy)]
pub struct Line<'a> {
    pub key: &'a [u8],
    pub value: &'a [u8],
    pub number: usize,
}

impl Line<'_> {
    // The spot of the first byte of the value: the one after the equals sign.
    pub fn spot(&self) -> Spot
        ensures { result ≡ spot_of self.now }
    {
        Spot {
            line: self.number,
            column: self.key.len() + 2,
        }
    }

    // The fault of a value that is not of its form.
    fn unread(&self) -> TextFault
        ensures { result ≡ no_value (spot_of self.now) }
    {
        TextFault {
            cause: Cause::Value,
            spot: self.spot(),
        }
    }

    // The value, by the form that it is to have.
    pub fn read<T: Form>(&self) -> Result<T, TextFault>
        ensures { result ≡ ok_or (T.form self.now.value.now) (no_value (spot_of self.now)) }
    {
        T::read(self.value).ok_or(self.unread())
    }

    // The value as numbers with commas between, which the list takes in place of its own. Where the value writes none, the list is empty then.
    pub fn read_numbers(&self, list: &mut Numbers) -> Result<(), TextFault>
        ensures value { told (λ u. listed list.new) result ≡ ok_or (numbers self.now.value.now) (no_value (spot_of self.now)) }
        ensures refused { is_ok result ≡ false → listed list.new ≡ [] }
    {
        list.read(self.value).ok_or(self.unread())
    }
}
