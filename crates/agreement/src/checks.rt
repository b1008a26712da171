// The checks of a run's calls on the lengths of their lists and the box that they name.
ghost use Rattle.std.specs.Prelude.{◌≡◌, ◌<◌, nat_lt, OnOk};
ghost use Rattle.quorum.specs.Refusals.{Answers, unless};
ghost use Rattle.agreement.specs.Calls.{no_opening, no_slip, other_length, other_lengths};
ghost use Rattle.agreement.specs.declared.faults.RunFault.TheVariants.{NoBox};

use crate::faults::RunFault;

// The list of this rank in the call must have an item for each box.
fn has_length(boxes: usize, rank: usize, length: usize) -> Result<(), RunFault>
    ensures value { Answers (other_length boxes rank length) (λ _. Unit {0}) result }
    ensures fitting { OnOk result (length ≡ boxes) }
{
    if length == boxes {
        Ok(())
    } else {
        Err(RunFault::Length(rank))
    }
}

// The lists of an opening must each have an item for each box.
pub(crate) fn may_open(boxes: usize, proposals: usize, table: usize) -> Result<(), RunFault>
    ensures value { Answers (no_opening boxes proposals table) (λ _. Unit {0}) result }
    ensures fitting { OnOk result ((proposals ≡ boxes) × (table ≡ boxes)) }
{
    has_length(boxes, 1, proposals)?;
    has_length(boxes, 2, table)
}

// The roster must have the box.
fn has_box(boxes: usize, i: usize) -> Result<(), RunFault>
    ensures value { Answers (unless (nat_lt i boxes) NoBox) (λ _. Unit {0}) result }
    ensures fitting { OnOk result (i < boxes) }
{
    if i < boxes {
        Ok(())
    } else {
        Err(RunFault::NoBox)
    }
}

// A read must name a box of the roster, on a table that has a slip for each.
pub(crate) fn may_read(boxes: usize, table: usize, i: usize) -> Result<(), RunFault>
    ensures value { Answers (no_slip boxes table i) (λ _. Unit {0}) result }
    ensures fitting { OnOk result ((i < boxes) × (table ≡ boxes)) }
{
    has_box(boxes, i)?;
    has_length(boxes, 1, table)
}

// The lists of a beat must each have an item for each box.
pub(crate) fn have_lengths(
    boxes: usize,
    table: usize,
    sheet: usize,
    heard: usize,
) -> Result<(), RunFault>
    ensures value { Answers (other_lengths boxes table sheet heard) (λ _. Unit {0}) result }
    ensures fitting { OnOk result ((table ≡ boxes) × (sheet ≡ boxes) × (heard ≡ boxes)) }
{
    has_length(boxes, 1, table)?;
    has_length(boxes, 2, sheet)?;
    has_length(boxes, 3, heard)
}
