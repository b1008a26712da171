// A rule that is made of numbers.
ghost use Rattle.std.specs.Prelude.{◌≡◌};
ghost use Rattle.quorum.specs.Refusals.{Answers};
ghost use Rattle.exports.specs.Asked.{asked, clear_asked, least, no_rule, no_sizes};
ghost use Rattle.quorum.specs.Chosen.{clear_of, family_of};

use crate::numbers::RuleNumbers;
use quorum::anchored::Anchored;
use quorum::chosen::ChosenRule;
use quorum::majority::Majority;
use quorum::present::AllPresent;
use quorum::refusals::RuleFault;
use quorum::sizes::Sizes;

// The sizes that are asked for.
fn sizes(numbers: &RuleNumbers) -> Result<Sizes, RuleFault>
    ensures { Answers (no_sizes numbers.now) (λ x. (x.roster.boxes ≡ numbers.now.boxes) × (x.quorum ≡ least numbers.now numbers.now.quorum) × (x.clear ≡ least numbers.now numbers.now.clear)) result }
{
    if numbers.base == 1 {
        Sizes::thirds(numbers.boxes)
    } else {
        Sizes::new(numbers.boxes, numbers.quorum, numbers.clear)
    }
}

// The rule that is asked for, or why it cannot be made.
pub(crate) fn rule_asked(numbers: &RuleNumbers) -> Result<ChosenRule, RuleFault>
    ensures { Answers (no_rule numbers.now) (λ x. (family_of x ≡ asked numbers.now) × (clear_of x ≡ clear_asked numbers.now)) result }
{
    let anchor = numbers.anchor;
    Ok(match (numbers.base, numbers.anchored) {
        (0, 0) => ChosenRule::Majority(AllPresent::new(Majority::new(numbers.boxes)?)),
        (0, _) => {
            let below = Majority::new(numbers.boxes)?;
            ChosenRule::AnchoredMajority(AllPresent::new(Anchored::new(below, anchor)?))
        },
        (_, 0) => ChosenRule::Sizes(sizes(numbers)?),
        (_, _) => {
            let below = sizes(numbers)?;
            ChosenRule::AnchoredSizes(AllPresent::new(Anchored::new(below, anchor)?))
        },
    })
}
