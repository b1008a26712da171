// The slip: what one box knows and sends.
ghost use Rattle.std.specs.Prelude.{◌≡◌};
ghost use Rattle.agreement.specs.Slips.{opening, quiet, turned};

use setup::dated::DatedVote;

#[derive(Clone, Copy, Drop)]
pub struct Slip<V> {
    // the setup that the box stands for; at the opening its proposal
    pub own: V,
    // the setup that it would have the others vote for
    pub pick: Option<V>,
    // the setup that it is ready to vote for
    pub say: Option<V>,
    // its vote in the phase just finished
    pub cast: Option<V>,
    // what it learnt to be agreed in the phase just finished
    pub news: Option<V>,
    // the setup that it holds
    pub held: Option<V>,
    // the last vote that it was ready to cast, with its phase
    pub dated: Option<DatedVote<V>>,
}

impl<V: Copy> Slip<V> {
    // The first slip of a box that proposes this setup.
    pub fn opening(proposal: V) -> Slip<V>
        ensures { result ≡ opening proposal }
    {
        Slip {
            own: proposal,
            pick: None,
            say: None,
            cast: None,
            news: None,
            held: None,
            dated: None,
        }
    }

    // The slip with this cast and this news: held becomes news where news is there, and every other field keeps.
    pub fn turned(self, cast: Option<V>, news: Option<V>) -> Slip<V>
        ensures { result ≡ turned cast news self }
    {
        let mut slip = self;
        slip.cast = cast;
        slip.news = news;
        slip.held = news.or(self.held);
        slip
    }

    // The slip without cast and news, every other field keeping.
    pub fn quiet(self) -> Slip<V>
        ensures { result ≡ quiet self }
    {
        self.turned(None, None)
    }
}
