// What a box makes of what it received: the smallest setup, the one that a quorum backs, the one that all sent, and the one that most sent.
ghost use Rattle.std.specs.Prelude.{◌≡◌, map, if◌then◌else◌, None};
ghost use Rattle.quorum.specs.Sets.{has};
ghost use Rattle.setup.specs.Rows.{IsFirst, among, entry};
ghost use Rattle.procedures.specs.Received.{IsBacked, IsMostOften, IsUnanimous, backed as backed_by, backer as backer_of, most_often as most_often_of, smallest as smallest_of, unanimous as unanimous_in};

use quorum::members::each;
use quorum::rules::Rule;
use quorum::sets::{BoxSet, added, contains, size};
use setup::having::{all_have, boxes_with, is};
use setup::orders::Setup;
use setup::search::{Field, first, read_at, sooner};

// The smallest of what the boxes sent that were heard.
pub fn smallest<T, V: Setup, F: Field<T, V>>(field: &F, row: &[T], heard: BoxSet) -> Option<V>
    ensures value { result ≡ smallest_of V.Setup.before (among (map (F.Field.reads field.now) row.now) heard) }
    ensures law { IsFirst V.Setup.before (map (F.Field.reads field.now) row.now) heard result }
{
    first(field, row, heard)
}

// What box `i` sent, if it is not among the boxes whose setup was tried.
fn untried<T, V: Setup, F: Field<T, V>>(field: &F, row: &[T], tried: BoxSet, i: usize) -> Option<V>
    ensures { result ≡ (if has tried i then None else entry (map (F.Field.reads field.now) row.now) i) }
{
    if contains(tried, i) {
        None
    } else {
        read_at(field, row, i)
    }
}

// The lowest box that sent a setup whose senders, together with `others`, are a quorum. A setup is tried once, whichever of its senders comes first.
fn backer<R: Rule, T, V: Setup, F: Field<T, V>>(
    rule: &R,
    field: &F,
    row: &[T],
    heard: BoxSet,
    others: BoxSet,
) -> Option<usize>
    ensures { result ≡ backer_of (R.Rule.family rule.now) V.Setup.before others (among (map (F.Field.reads field.now) row.now) heard) }
{
    let mut tried = 0;
    'search: {
        for i in each(heard) {
            if let Some(v) = untried(field, row, tried, i) {
                let mut senders = 0;
                // a box that was tried sent another setup
                for j in each(heard & !tried) {
                    if is(v, read_at(field, row, j)) {
                        senders = added(senders, j);
                    }
                }
                if rule.is_quorum(senders | others) {
                    break 'search Some(i);
                }
                tried |= senders;
            }
        }
        None
    }
}

// The setup that a quorum backs: its senders, together with `others`, are one. Of several it is what the lowest box sent.
#[tactic(auto, using(crate::proofs::Finding::backed_law, crate::proofs::Finding::backed_read))]
pub fn backed<R: Rule, T, V: Setup, F: Field<T, V>>(
    rule: &R,
    field: &F,
    row: &[T],
    heard: BoxSet,
    others: BoxSet,
) -> Option<V>
    ensures value { result ≡ backed_by (R.Rule.family rule.now) V.Setup.before others (among (map (F.Field.reads field.now) row.now) heard) }
    ensures law { IsBacked (R.Rule.family rule.now) V.Setup.before others (among (map (F.Field.reads field.now) row.now) heard) result }
{
    read_at(field, row, backer(rule, field, row, heard, others)?)
}

// The setup that all the boxes sent that were heard: what the lowest of them sent, if the others sent it too.
#[tactic(auto, using(crate::proofs::Finding::nobody_heard, crate::proofs::Finding::nothing_sent, crate::proofs::Finding::others_asked, crate::proofs::Finding::unanimous_law))]
pub fn unanimous<T, V: Setup, F: Field<T, V>>(field: &F, row: &[T], heard: BoxSet) -> Option<V>
    ensures value { result ≡ unanimous_in V.Setup.before heard (among (map (F.Field.reads field.now) row.now) heard) }
    ensures law { IsUnanimous V.Setup.before heard (among (map (F.Field.reads field.now) row.now) heard) result }
{
    let mut boxes = each(heard);
    let v = read_at(field, row, boxes.next()?)?;
    all_have(field, row, boxes.left(), v).then_some(v)
}

// The setup that most of them sent, and of several such the smallest. Each setup is counted once, whichever of its senders comes first.
pub fn most_often<T, V: Setup, F: Field<T, V>>(field: &F, row: &[T], heard: BoxSet) -> Option<V>
    ensures value { result ≡ most_often_of V.Setup.before (among (map (F.Field.reads field.now) row.now) heard) }
    ensures law { IsMostOften V.Setup.before (among (map (F.Field.reads field.now) row.now) heard) result }
{
    let mut counted = 0;
    // a setup with how many sent it: two such pairs compare as dated votes do, the greater number coming first
    let mut most: Option<(u16, V)> = None;
    for i in each(heard) {
        if let Some(v) = untried(field, row, counted, i) {
            // a box that was counted sent another setup
            let senders = boxes_with(field, row, heard & !counted, v);
            most = sooner(most, Some((size(senders) as u16, v)));
            counted |= senders;
        }
    }
    most.map(|(_, v)| v)
}
