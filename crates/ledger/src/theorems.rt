// Statements about the ledger: each function's contract is one.
// They are functions for that alone: the check asks for a theorem where a contract states it.
ghost use Rattle.std.specs.Prelude.{◌≡◌, true};
ghost use Rattle.ledger.specs.Theorems.{RowsStandByLots, OpenLotsAreOrderly, EligibleIsLeft, SameStandingChoosesAlike, InvariantOfEveryHistory, LawsOfEveryHistory};
ghost use Rattle.ledger.specs.Worked.{cases_hold};
ghost use Rattle.ledger.specs.Examples.{EachMarketAccepts, TwoHistories};

// The worked cases, computed by the ledger.
pub fn worked_cases() -> u8
    ensures every_worked_case_holds { cases_hold ≡ true }
{
    0
}

// What choosing asks of a ledger.
pub fn standing_figures() -> u8
    ensures what_stands_by_rows_stands_by_lots { RowsStandByLots }
    ensures lots_of_a_closed_book_are_orderly { OpenLotsAreOrderly }
    ensures every_unit_has_left_what_is_eligible { EligibleIsLeft }
    ensures same_standing_figures_choose_alike { SameStandingChoosesAlike }
{
    0
}

// What holds after any list of calls.
pub fn histories() -> u8
    ensures invariant_holds_after_any_calls { InvariantOfEveryHistory }
    ensures every_accepted_selection_keeps_the_laws { LawsOfEveryHistory }
{
    0
}

// That the laws speak of something: histories that accept.
pub fn examples() -> u8
    ensures a_selection_is_accepted_in_each_market { EachMarketAccepts }
    ensures two_different_histories_stand_alike_and_both_accept { TwoHistories }
{
    0
}
