// Choosing in merit order.
ghost use Rattle.std.specs.Prelude.{◌≡◌, ◌≤◌};
ghost use Rattle.lots.specs.Sums.{sum_of};
ghost use Rattle.markets.specs.Candidates.{Sound, planned, commitments, chosen_in};

use crate::candidate::Candidates;
use crate::choice::Choice;
use crate::rule::TieRule;
use lots::lot::Lot;

// Chooses a demand from the lots of all candidates in merit order. Each unit's lots rise in cost, so the lot that goes first is the first of the units' next lots.
pub fn choose<L: Lot, R: TieRule>(mut candidates: Candidates<L>, rule: &R, demand: u32) -> Choice<L>
    ensures chooses_in_merit_order { Sound L.Lot.figures candidates → commitments L.Lot.figures result ≡ planned (R.TieRule.model rule.now) L.Lot.figures candidates demand }
    ensures counts_the_megawatts { (result.megawatts ≡ sum_of (λ c. c.megawatts) (chosen_in result)) × (result.megawatts ≤ demand) }
{
    let mut choice = Choice::new(candidates.filler());
    let mut unfilled = demand;
    while unfilled > 0 {
        let Some(chosen) = candidates.take_first(rule, unfilled) else {
            return choice;
        };
        unfilled -= chosen.megawatts;
        choice.add(chosen);
    }
    choice
}
