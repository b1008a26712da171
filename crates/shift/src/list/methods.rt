// Numbers with commas between them, read into a list.
ghost use Rattle.std.specs.Prelude.{◌≡◌, ◌≤◌, [], None, length};
ghost use Rattle.shift.specs.Lists.{added, extended, listed, numbers};
ghost use Rattle.shift.specs.Numbers.{number as number_in};
ghost use Rattle.std.specs.Option.{option_map};

use crate::classes::Class;
use crate::list::{Numbers, ROOM};
use crate::numbers::number;

impl Numbers {
    // The list without a number.
    pub fn empty() -> Numbers
        ensures { listed result ≡ [] }
    {
        Numbers {
            items: [0; ROOM],
            count: 0,
        }
    }

    // The numbers, in their order.
    pub fn as_slice(&self) -> &[u32]
        ensures value { result.now ≡ listed self.now }
        ensures bound { length result.now ≤ 32 }
    {
        &self.items[0..self.count]
    }

    // Puts one more number at the end, if there is room.
    pub fn push(&mut self, n: u32) -> Option<()>
        ensures pushed { option_map (λ u. listed self.new) result ≡ extended (listed self.old) n }
        ensures full { result ≡ None → self.new ≡ self.old }
    {
        if self.count == ROOM {
            return None;
        }
        self.items[self.count] = n;
        self.count += 1;
        Some(())
    }

    // Puts the number that the piece writes at the end, if it is one and there is room.
    fn push_piece(&mut self, piece: &[u8]) -> Option<()>
        ensures { option_map (λ u. listed self.new) result ≡ added (listed self.old) (number_in piece.now) }
    {
        self.push(number(piece)?)
    }

    // Puts the numbers that the value writes into an empty list, until one is refused.
    fn fill(&mut self, value: &[u8]) -> Option<()>
        requires { listed self.old ≡ [] }
        ensures { option_map (λ u. listed self.new) result ≡ numbers value.now }
    {
        for piece in value.split(|b| Class::Comma.has(*b)) {
            self.push_piece(piece)?;
        }
        Some(())
    }

    // Takes the numbers that the value writes, with commas between, in place of its own: 1 to 32. Where the value writes no such numbers, the list is empty then.
    pub fn read(&mut self, value: &[u8]) -> Option<()>
        ensures value { option_map (λ u. listed self.new) result ≡ numbers value.now }
        ensures refused { result ≡ None → listed self.new ≡ [] }
    {
        self.count = 0;
        let read = self.fill(value);
        if read.is_none() {
            self.count = 0;
        }
        read
    }
}
