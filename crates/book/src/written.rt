// The rows of a list that are written, for reading.
ghost use Rattle.std.specs.Prelude.{◌≡◌, ◌*◌, ◌<◌, ◌≤◌, length};
ghost use Rattle.quorum.specs.Rules.{Roster};

use crate::rows::Row;
use setup::orders::Setup;

// What a book's methods hand to functions: its list lent for reading, and its count.
#[derive(Drop)]
pub(crate) struct Written<'a, V> {
    pub(crate) list: &'a [Option<V>],
    pub(crate) boxes: usize,
    pub(crate) rows: usize,
    ghost sized: { Roster boxes },
    ghost kept: { rows * boxes ≤ length list.now },
}

impl<'a, V: Setup> Written<'a, V> {
    ghost use Rattle.book.specs.Keeping.{read};
    ghost use Rattle.book.specs.Pages.{row as row_of};

    // Row `r`.
    pub(crate) fn row(&self, r: usize) -> Row<V>
        requires { r < self.now.rows }
        ensures { result.entries.now ≡ row_of (read self.now) r }
    {
        let at = r * self.boxes;
        Row::new(&self.list[at..at + self.boxes])
    }
}
