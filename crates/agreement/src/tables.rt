// The table of slips: how an opening fills it, and how a beat rewrites it.
ghost use Rattle.std.specs.Prelude.{◌≡◌, ◌<◌, length};
ghost use Rattle.agreement.specs.Protocols.{beaten};
ghost use Rattle.agreement.specs.Slips.{opened};
ghost use Rattle.agreement.specs.Inside.{At};

use crate::hearing::Given;
use crate::procedures::Procedure;
use crate::slips::Slip;
use setup::orders::Setup;

// The table at the opening. By index and not by `zip`: over that a loop's invariant has no name for the table.
pub(crate) fn fill<V: Setup>(proposals: &[V], table: &mut [Slip<V>])
    requires { length proposals.now ≡ length table.old }
    ensures { table.new ≡ opened proposals.now }
{
    for (i, slip) in table.iter_mut().enumerate() {
        *slip = Slip::opening(proposals[i]);
    }
}

impl<'a, P> Given<'a, P> {
    // The new slip of box `i`, from the slips as they stood before the beat.
    fn new_slip<V: Setup>(&self, slips: &[Slip<V>], i: usize) -> Slip<V>
    where
        P: Procedure<V>,
        requires { (i < length slips.now) × (i < self.now.boxes) }
        ensures { At (beaten (P.Procedure.meaning self.now.procedure.now) self.now.phase self.now.beat self.now.heard.now slips.now) i result }
    {
        self.procedure
            .next(self.phase, self.beat, i, &slips[i], self.heard[i], slips)
    }

    // The table after the beat, from the slips as they stood before it.
    #[tactic(auto, using(crate::proofs::Overwriting::over_next, crate::proofs::Overwriting::over_all, crate::proofs::Entries::beaten_length))]
    fn rewrite<V: Setup>(&self, slips: &[Slip<V>], table: &mut [Slip<V>])
    where
        P: Procedure<V>,
        requires { (length table.old ≡ self.now.boxes) × (length slips.now ≡ self.now.boxes) }
        ensures { table.new ≡ beaten (P.Procedure.meaning self.now.procedure.now) self.now.phase self.now.beat self.now.heard.now slips.now }
    {
        for (i, slip) in table.iter_mut().enumerate() {
            *slip = self.new_slip(slips, i);
        }
    }

    // The beat: the sheet receives the former slips, and the table is made anew from them.
    pub(crate) fn turn_over<V: Setup>(&self, table: &mut [Slip<V>], sheet: &mut [Slip<V>])
    where
        P: Procedure<V>,
        requires { (length sheet.old ≡ self.now.boxes) × (length table.old ≡ self.now.boxes) }
        ensures table { table.new ≡ beaten (P.Procedure.meaning self.now.procedure.now) self.now.phase self.now.beat self.now.heard.now table.old }
        ensures sheet { sheet.new ≡ table.old }
    {
        sheet.copy_from_slice(table);
        self.rewrite(sheet, table);
    }
}
