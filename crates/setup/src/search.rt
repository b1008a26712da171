// One search: the first setup among the boxes of a set.
ghost use Rattle.std.specs.Prelude.{◌≡◌, map, Some, Option};
ghost use Rattle.setup.specs.Rows.{among, entry, first as first_of, sooner as sooner_of, IsFirst};

use crate::orders::Setup;
use quorum::members::{Members, each};
use quorum::sets::BoxSet;

// What a search reads of each entry of a row: a setup or none. A trait and not a closure: a call that takes a closure has a `requires`, and no public call has one.
pub trait Field<T, V> {
    ghost reads: { Self → T → Option V };

    fn read(&self, item: &T) -> Option<V>
        ensures { result ≡ reads self.now item.now };
}

// An entry that is a setup.
#[derive(Clone, Copy)]
pub struct Plain;

impl<V: Setup> Field<V, V> for Plain {
    ghost reads = { λ _ v. Some v };

    fn read(&self, item: &V) -> Option<V> {
        Some(*item)
    }
}

// An entry that is a setup or none.
#[derive(Clone, Copy)]
pub struct Optional;

impl<V: Setup> Field<Option<V>, V> for Optional {
    ghost reads = { λ _ v. v };

    fn read(&self, item: &Option<V>) -> Option<V> {
        *item
    }
}

// What box `i` has, as `field` reads it from its entry in the row: none past the row's end.
pub fn read_at<T, V: Setup, F: Field<T, V>>(field: &F, row: &[T], i: usize) -> Option<V>
    ensures { result ≡ entry (map (F.Field.reads field.now) row.now) i }
{
    field.read(row.get(i)?)
}

// The one of two that comes first; none comes last.
pub fn sooner<V: Setup>(a: Option<V>, b: Option<V>) -> Option<V>
    ensures { result ≡ sooner_of V.Setup.before a b }
{
    match (a, b) {
        (None, y) => y,
        (x, None) => x,
        (Some(x), Some(y)) => Some(if y.comes_before(&x) { y } else { x }),
    }
}

// The first of a setup and of what the boxes have that are left.
fn first_of_these<T, V: Setup, F: Field<T, V>>(field: &F, row: &[T], left: Members, v: V) -> V
    ensures { Some result ≡ sooner_of V.Setup.before (Some v) (first_of V.Setup.before (among (map (F.Field.reads field.now) row.now) left.left)) }
{
    let mut best = v;
    for i in left {
        if let Some(w) = read_at(field, row, i) {
            if w.comes_before(&best) {
                best = w;
            }
        }
    }
    best
}

// The first setup among the boxes of the set, as `field` reads it from their entries in the row: some box has one, and of its setup and those of the boxes after it the first is taken.
pub fn first<T, V: Setup, F: Field<T, V>>(field: &F, row: &[T], set: BoxSet) -> Option<V>
    ensures value { result ≡ first_of V.Setup.before (among (map (F.Field.reads field.now) row.now) set) }
    ensures law { IsFirst V.Setup.before (map (F.Field.reads field.now) row.now) set result }
{
    let mut boxes = each(set);
    while let Some(i) = boxes.next() {
        if let Some(v) = read_at(field, row, i) {
            return Some(first_of_these(field, row, boxes, v));
        }
    }
    None
}
