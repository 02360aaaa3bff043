// What is proved of lots: each function's contract is one theorem.
// They are functions for that alone: the check asks for a theorem where a contract states it.
ghost use Rattle.lots.specs.Theorems.{LotsSumToWhatIsOffered, LotsRiseInCost, LotsAreRuns, CostsArePrices};

pub fn lots_of_a_side() -> u8
    ensures lots_sum_to_what_is_offered { LotsSumToWhatIsOffered }
    ensures lots_of_one_unit_rise_in_cost { LotsRiseInCost }
{
    0
}

pub fn lots_by_megawatts() -> u8
    ensures lots_are_runs_of_megawatts { LotsAreRuns }
    ensures costs_are_the_prices_of_the_megawatts { CostsArePrices }
{
    0
}
