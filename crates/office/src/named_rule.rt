// The rule that a text asks for, by its name and the roster.
ghost use Rattle.std.specs.Prelude.{◌≡◌};
ghost use Rattle.quorum.specs.Chosen.{clear_of, family_of};
ghost use Rattle.office.specs.Named.{clear_by, rule_by};

use quorum::anchored::Anchored;
use quorum::chosen::ChosenRule;
use quorum::majority::Majority;
use quorum::present::AllPresent;
use quorum::rosters::Roster;
use quorum::sizes::Sizes;
use shift::names::RuleName;

// The rule of that name on the roster, which no making refuses: the roster was judged when it was made. Anchored stands on box 0.
pub(crate) fn named_rule(name: RuleName, roster: Roster) -> ChosenRule
    ensures rule { family_of result ≡ rule_by name roster.boxes }
    ensures clear { clear_of result ≡ clear_by name roster.boxes }
{
    let boxes = roster.boxes();
    match name {
        RuleName::Majority => {
            ChosenRule::Majority(AllPresent::new(Majority::new(boxes).unwrap()))
        },
        RuleName::Thirds => ChosenRule::Sizes(Sizes::thirds(boxes).unwrap()),
        RuleName::Anchored => {
            let below = Majority::new(boxes).unwrap();
            ChosenRule::AnchoredMajority(AllPresent::new(Anchored::new(below, 0).unwrap()))
        },
    }
}
