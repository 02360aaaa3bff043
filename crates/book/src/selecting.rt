// Selecting, and settling what was selected, each by the ledger's step: the same two clauses stand on each, about another call.
ghost use Rattle.std.specs.Prelude.{◌≡◌, true, IfErr};
ghost use Rattle.ledger.specs.declared.slip.SlipFigures.{SlipFigures};
ghost use Rattle.ledger.specs.Laws.{Laws};
ghost use Rattle.ledger.specs.Calls.{slip, selecting, confirming, step};
ghost use Rattle.book.specs.Books.{ledger_of, answer_of};
ghost use Rattle.book.specs.Slips.{figures_of, slip_answer, settled_answer};
ghost use Rattle.book.specs.Choosing.{StandsIn};
ghost use Rattle.book.specs.Taking.{Allowed, taken};

use crate::Book;
use crate::choosing::Stood;
use crate::slip::Slip;
use crate::standings::StandingTable;
use ledger::slip::SlipFigures;
use lots::lot::{BandLot, EnergyLot, Filler};
use markets::choice::Choice;
use markets::market::Market;
use markets::rule::TieRule;
use units::refusal::Refusal;
use units::side::{MarketNumber, Side};

impl Book {
    // Selects a demand in a market, by a tie rule; the rows carry the number of a market of the same side.
    // Any number may be asked: one of no market, or of another side, is refused.
    // Market, rule, number and demand are the call's figures, each by itself, as its refusals are.
    pub fn select<M: Market, R: TieRule>(
        &mut self,
        market: &M,
        rule: &R,
        number: u8,
        demand: u32,
    ) -> Result<Slip, Refusal>
        ensures answers_as_the_ledger { slip_answer result ≡ (step (ledger_of self.old) (selecting (M.Market.model market.now) (R.TieRule.model rule.now) number demand)).1 }
        ensures is_the_ledger_after_the_call { ledger_of self.new ≡ (step (ledger_of self.old) (selecting (M.Market.model market.now) (R.TieRule.model rule.now) number demand)).0 }
        ensures accepted_selection_keeps_the_laws { (s : SlipFigures) → slip_answer result ≡ slip s → Laws (ledger_of self.old) (ledger_of self.new) (M.Market.model market.now) (R.TieRule.model rule.now) number demand s }
    {
        if demand == 0 || demand > 200000 {
            return Err(Refusal::OutOfRange);
        }
        let carried = MarketNumber::try_from(number)?;
        if carried.side() != market.side() {
            return Err(Refusal::OutOfRange);
        }
        if !self.closed {
            return Err(Refusal::NotClosed);
        }
        if market.side() == Side::Band && self.rows.has_energy() {
            return Err(Refusal::EnergyStands);
        }
        let stood = self.stood();
        if stood.total_eligible(market) == 0 {
            return Err(Refusal::NothingEligible);
        }
        let Stood { book: _, table } = stood;
        if self.given == 65535 {
            return Err(Refusal::NumbersSpent);
        }
        match carried.side() {
            Side::Up | Side::Down => {
                self.take::<EnergyLot, M, R>(market, rule, carried, demand, table)
            }
            Side::Band => self.take::<BandLot, M, R>(market, rule, carried, demand, table),
        }
    }

    // Makes a selection with lots of a kind that serves the market's side, if there is room for its rows.
    fn take<L: Filler, M: Market, R: TieRule>(
        &mut self,
        market: &M,
        rule: &R,
        carried: MarketNumber,
        demand: u32,
        table: StandingTable,
    ) -> Result<Slip, Refusal>
        requires stands { StandsIn table (ledger_of self.old) }
        requires serves { L.Lot.serves (M.Market.model market.now).side ≡ true }
        requires allowed { Allowed (M.Market.model market.now) carried demand (ledger_of self.old) }
        ensures answers_by_the_last_line { slip_answer result ≡ (taken (M.Market.model market.now) (R.TieRule.model rule.now) carried demand (ledger_of self.old)).1 }
        ensures takes_or_changes_nothing { ledger_of self.new ≡ (taken (M.Market.model market.now) (R.TieRule.model rule.now) carried demand (ledger_of self.old)).0 }
    {
        let selection = self.given + 1;
        let choice: Choice<L> = Stood { book: self, table }.choose(market, rule, demand);
        self.rows.add(choice.lots(), selection, carried)?;
        self.given = selection;
        Ok(Slip::of(self.open_figures(selection)))
    }

    // Confirms the open selection with these figures; the slip that has them is to be ended with it.
    pub(crate) fn confirm_by(&mut self, figures: &SlipFigures) -> Result<(), Refusal>
        ensures answers_as_the_ledger { answer_of result ≡ (step (ledger_of self.old) (confirming figures.now)).1 }
        ensures is_the_ledger_after_the_call { ledger_of self.new ≡ (step (ledger_of self.old) (confirming figures.now)).0 }
    {
        if !self.is_held(figures) {
            return Err(Refusal::NoOpenSelection);
        }
        self.rows.confirm(figures.number);
        Ok(())
    }

    // Confirms the selection of a slip, and ends the slip. Where no open selection has its figures it comes back.
    pub fn confirm(&mut self, slip: Slip) -> Result<(), Slip>
        ensures answers_as_the_ledger { settled_answer result ≡ (step (ledger_of self.old) (confirming (figures_of slip))).1 }
        ensures is_the_ledger_after_the_call { ledger_of self.new ≡ (step (ledger_of self.old) (confirming (figures_of slip))).0 }
        ensures slip_comes_back_unchanged { IfErr result (λ s. s ≡ slip) }
    {
        if self.confirm_by(&slip.figures()).is_err() {
            return Err(slip);
        }
        slip.end();
        Ok(())
    }
}
