// Rows of setups, one entry for each box, as they are shown.
ghost use Rattle.std.specs.Prelude.{◌≡◌, Some, length, map};
ghost use Rattle.setup.specs.Rows.{entry};
ghost use Rattle.office.specs.Events.{entries, part_of};
ghost use Rattle.office.specs.Printed.{cell_text, row_text};

use agreement::slips::Slip;
use std::fmt;
use std::fmt::Display;

// What is shown of each box.
#[derive(Clone, Copy)]
pub(crate) enum Column {
    // what it voted for in the phase just finished
    Cast,
    // what it holds
    Held,
}

impl Column {
    fn read(self, slip: &Slip<u32>) -> Option<u32>
        ensures { result ≡ part_of self slip.now }
    {
        match self {
            Column::Cast => slip.cast,
            Column::Held => slip.held,
        }
    }
}

// A setup or none for each box, as its slip in the table has it.
#[derive(Clone, Copy)]
pub struct Row<'a> {
    column: Column,
    table: &'a [Slip<u32>],
}

impl<'a> Row<'a> {
    pub(crate) fn new(column: Column, table: &'a [Slip<u32>]) -> Row<'a>
        ensures { entries result ≡ map (part_of column) table.entry.now }
    {
        Row { column, table }
    }

    // How many boxes there are.
    pub fn boxes(&self) -> usize
        ensures { result ≡ length (entries self.now) }
    {
        self.table.len()
    }

    // The setup of a box: none where it has none, and where there is no such box.
    pub fn setup(&self, i: usize) -> Option<u32>
        ensures { result ≡ entry (entries self.now) i }
    {
        self.column.read(self.table.get(i)?)
    }
}

// One entry as it is printed: a dash where there is none.
#[derive(Clone, Copy)]
struct Cell(Option<u32>);

impl fmt::Display for Cell {
    ghost output = { λ cell. Some (cell_text cell.0) };

    fn fmt<W: fmt::Write>(&self, f: &mut fmt::Formatter<W>) -> fmt::Result {
        match self.0 {
            Some(setup) => setup.fmt(f),
            None => f.write_str("-"),
        }
    }
}

// The entries with commas between.
impl fmt::Display for Row<'_> {
    ghost output = { λ row. Some (row_text (entries row)) };

    #[tactic(auto, using(crate::proofs::Written::turns))]
    fn fmt<W: fmt::Write>(&self, f: &mut fmt::Formatter<W>) -> fmt::Result {
        let Some((first, more)) = self.table.split_first() else {
            return Ok(());
        };
        Cell(self.column.read(first)).fmt(f)?;
        for slip in more {
            f.write_str(",")?;
            Cell(self.column.read(slip)).fmt(f)?;
        }
        Ok(())
    }
}
