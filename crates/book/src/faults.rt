// What a book declines with.
ghost use Rattle.std.specs.Prelude.{◌≡◌};
ghost use Rattle.book.specs.Faults.{of_book};

use quorum::refusals::{Fault, Layer, Refusal};

#[derive(Clone, Copy, Debug, PartialEq)]
pub enum BookFault {
    OtherRoster,
    // the rank of the list in the call, from 1, as reports give it
    Length(usize),
    NoRow,
    // the box that breaks the guard
    Defection(usize),
    Unbacked(usize),
}

impl From<BookFault> for Fault {
    ghost from_gives = { λ fault r. r ≡ of_book fault };

    fn from(fault: BookFault) -> Fault {
        let (refusal, place) = match fault {
            BookFault::OtherRoster => (Refusal::OtherRoster, 0),
            BookFault::Length(rank) => (Refusal::Length, rank),
            BookFault::NoRow => (Refusal::NoRow, 0),
            BookFault::Defection(i) => (Refusal::Defection, i),
            BookFault::Unbacked(i) => (Refusal::Unbacked, i),
        };
        Fault {
            refusal,
            layer: Layer::Book,
            place,
        }
    }
}
