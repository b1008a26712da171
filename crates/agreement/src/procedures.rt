// What a procedure answers, what it means, and the laws that it keeps.
ghost use Rattle.std.specs.Prelude.{◌≡◌};
ghost use Rattle.agreement.specs.Laws.{Lawful};
ghost use Rattle.agreement.specs.Protocols.{Protocol};

use crate::slips::Slip;
use quorum::rules::Rule;
use quorum::sets::BoxSet;
use setup::orders::Setup;

// How the boxes come to agree: a rule's quorums, and what each beat of a phase makes of the slips. Phase and beat stay two numbers, as its meaning takes them.
pub trait Procedure<V: Setup> {
    // The kind of rule that it is over.
    type Over: Rule;

    ghost meaning: { Self → Protocol V };

    // The rule that it is over.
    fn rule(&self) -> &Self::Over
        ensures { Self.Over.Rule.family result.now ≡ (meaning self.now).rule };

    // How many beats a phase has.
    fn beats(&self) -> u8
        ensures { result ≡ (meaning self.now).beats };

    // Whether a box may go on with this heard set in this beat.
    fn admits(&self, phase: u16, beat: u8, set: BoxSet) -> bool
        ensures { result ≡ (meaning self.now).admits phase beat set };

    // Whether the set is clear in this beat.
    fn is_clear(&self, phase: u16, beat: u8, set: BoxSet) -> bool
        ensures { result ≡ (meaning self.now).clear phase beat set };

    // The new slip of box `i`, from its slip and those that it heard in the table.
    fn next(
        &self,
        phase: u16,
        beat: u8,
        i: usize,
        slip: &Slip<V>,
        heard: BoxSet,
        table: &[Slip<V>],
    ) -> Slip<V>
        ensures { result ≡ (meaning self.now).next phase beat i slip.now heard table.now };

    ghost lawful: { (procedure : Self) → Lawful (meaning procedure) };
}
