// The whole parts of a list.
ghost use Rattle.std.specs.Prelude.{◌≡◌, ◌<◌};
ghost use Rattle.exports.specs.InTurn.{part as part_of, parts as parts_of};

// How many parts, each so long, a list has.
pub(crate) fn parts<T>(each: usize, list: &[T]) -> usize
    ensures { result ≡ parts_of each list.now }
{
    if each == 0 { 0 } else { list.len() / each }
}

// Part k.
pub(crate) fn part<T>(each: usize, list: &[T], k: usize) -> &[T]
    requires { k < parts_of each list.now }
    ensures { result.now ≡ part_of each list.now k }
{
    let at = k * each;
    &list[at..at + each]
}
