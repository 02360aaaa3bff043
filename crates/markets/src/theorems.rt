// What is proved of markets and of choosing: each function's contract is one theorem.
// They are functions for that alone: the check asks for a theorem where a contract states it.
ghost use Rattle.std.specs.Prelude.{◌≡◌};
ghost use Rattle.markets.specs.Markets.{market_of};
ghost use Rattle.markets.specs.Choosing.{MeritHasTheSameLots, MeritAscends, ChoiceCovers, ChoiceIsPermitted, FullFrontsCostLeast, ChoiceHasFullFronts, SameLotsGiveOneChoice};

use crate::market::{Band, FastDown, FastUp, Market, SlowDown, SlowUp};
use units::side::MarketNumber;

pub fn market_names() -> u8
    ensures band_is_the_market_of_its_number { ⟦<Band as Market>⟧.model (record {}) ≡ market_of MarketNumber.Band }
    ensures fast_up_is_the_market_of_its_number { ⟦<FastUp as Market>⟧.model (record {}) ≡ market_of MarketNumber.FastUp }
    ensures fast_down_is_the_market_of_its_number { ⟦<FastDown as Market>⟧.model (record {}) ≡ market_of MarketNumber.FastDown }
    ensures slow_up_is_the_market_of_its_number { ⟦<SlowUp as Market>⟧.model (record {}) ≡ market_of MarketNumber.SlowUp }
    ensures slow_down_is_the_market_of_its_number { ⟦<SlowDown as Market>⟧.model (record {}) ≡ market_of MarketNumber.SlowDown }
{
    0
}

pub fn merit_order() -> u8
    ensures merit_order_has_the_same_lots { MeritHasTheSameLots }
    ensures each_lot_goes_before_those_after_it { MeritAscends }
{
    0
}

pub fn coverage() -> u8
    ensures choice_covers_the_demand_or_all_that_is_eligible { ChoiceCovers }
    ensures choice_is_permitted { ChoiceIsPermitted }
{
    0
}

pub fn least_cost() -> u8
    ensures full_fronts_cost_least { FullFrontsCostLeast }
    ensures choice_has_full_fronts { ChoiceHasFullFronts }
{
    0
}

pub fn equal_commitments() -> u8
    ensures same_lots_give_one_choice { SameLotsGiveOneChoice }
{
    0
}
