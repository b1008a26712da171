// Which boxes of a set have a setup.
ghost use Rattle.std.specs.Prelude.{◌≡◌, ℕ, ◌&&◌, ◌==◌, Decides, map, true};
ghost use Rattle.quorum.specs.Sets.{has};
ghost use Rattle.setup.specs.Rows.{among, entry, boxes_with as boxes_that_have, is as is_of, same as same_of};

use crate::orders::Setup;
use crate::search::{Field, read_at};
use quorum::members::each;
use quorum::sets::{BoxSet, added};

// Whether two setups are the same: neither comes before the other. No `PartialEq`, since it is not asked of a kind of setup.
pub fn same<V: Setup>(v: V, w: V) -> bool
    ensures { result ≡ same_of V.Setup.before v w }
{
    !v.comes_before(&w) && !w.comes_before(&v)
}

// Whether an entry is the setup `v`.
pub fn is<V: Setup>(v: V, entry: Option<V>) -> bool
    ensures { result ≡ is_of V.Setup.before v entry }
{
    entry.is_some_and(|w| same(v, w))
}

// The boxes of the set that have the setup `v`, as `field` reads it from their entries in the row. `boxes` says so box by box.
#[tactic(auto, using(crate::proofs::Walked::gathers_none))]
pub fn boxes_with<T, V: Setup, F: Field<T, V>>(field: &F, row: &[T], set: BoxSet, v: V) -> BoxSet
    ensures value { result ≡ boxes_that_have V.Setup.before v (among (map (F.Field.reads field.now) row.now) set) }
    ensures boxes { (i : ℕ) → has result i ≡ (has set i && is_of V.Setup.before v (entry (map (F.Field.reads field.now) row.now) i)) }
{
    let mut found = 0;
    for i in each(set) {
        if is(v, read_at(field, row, i)) {
            found = added(found, i);
        }
    }
    found
}

// Whether all boxes of the set have the setup `v`. It stops at the first that has not.
pub fn all_have<T, V: Setup, F: Field<T, V>>(field: &F, row: &[T], set: BoxSet, v: V) -> bool
    ensures value { result ≡ (boxes_that_have V.Setup.before v (among (map (F.Field.reads field.now) row.now) set) == set) }
    ensures boxes { Decides result ((i : ℕ) → has set i ≡ true → is_of V.Setup.before v (entry (map (F.Field.reads field.now) row.now) i) ≡ true) }
{
    for i in each(set) {
        if !is(v, read_at(field, row, i)) {
            return false;
        }
    }
    true
}
