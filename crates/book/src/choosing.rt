// What a selection takes of a book as it stands.
ghost use Rattle.std.specs.Prelude.{◌≡◌, ◌<◌, ◌≤◌, true, [], ◌∷◌, ◌++◌, map, length};
ghost use Rattle.markets.specs.Candidates.{remaining, entered, units_in, queues, commitment, commitments};
ghost use Rattle.ledger.specs.Selections.{total_eligible};
ghost use Rattle.ledger.specs.Selecting.{selection};
ghost use Rattle.book.specs.Books.{ledger_of};
ghost use Rattle.book.specs.Choosing.{StandsIn, left_at, Entered};

use crate::Book;
use crate::standings::StandingTable;
use arrayvec::ArrayVec;
use lots::lot::{Filler, Lot};
use markets::candidate::{Candidates, Left};
use markets::choice::Choice;
use markets::choose::choose;
use markets::market::Market;
use markets::rule::TieRule;
use units::figures::Figures;

// What a table leaves of a lot of the unit at a place: both are parameters, as the definitions read what stands.
fn left_at<L: Lot>(lot: L, standing: &StandingTable, place: usize) -> Left<L>
    ensures is_the_size_less_what_stands { result ≡ left_at L.Lot.figures standing.now place lot }
{
    let stands = standing.of_lot(place, lot.up(), lot.down());
    let rest = lot.size().saturating_sub(stands);
    Left { lot, rest }
}

// Enters the unit at a place, with its lots and what is left of each.
fn enter<L: Filler>(
    candidates: &mut Candidates<L>,
    figures: Figures,
    eligible: u32,
    lots: &[L],
    standing: &StandingTable,
    place: usize,
)
    requires few { length lots.now ≤ 25 }
    requires room { length (units_in candidates.old) < 32 }
    ensures enters_the_unit { units_in candidates.new ≡ units_in candidates.old ++ (entered figures eligible ∷ []) }
    ensures enters_its_lots { queues L.Lot.figures candidates.new ≡ queues L.Lot.figures candidates.old ++ (map (remaining L.Lot.figures figures) (map (left_at L.Lot.figures standing.now place) lots.now) ∷ []) }
{
    let mut left: ArrayVec<Left<L>, 25, L> = ArrayVec::new_in(L::none());
    for lot in lots {
        left.push(left_at(*lot, standing, place));
    }
    let _ = candidates.add(figures, eligible, &left);
}

// A book with what stands of its units, added up once.
#[derive(Drop)]
pub(crate) struct Stood<'a> {
    pub(crate) book: &'a Book,
    pub(crate) table: StandingTable,
    ghost stands: { StandsIn table (ledger_of book.now) },
}

impl<'a> Stood<'a> {
    // The eligible energy of all units in a market.
    pub(crate) fn total_eligible<M: Market>(&self, market: &M) -> u64
        ensures is_the_total { result ≡ total_eligible (M.Market.model market.now) (ledger_of self.now.book.now) }
    {
        let mut total: u64 = 0;
        for (place, entry) in self.book.units.as_slice().iter().enumerate() {
            total += u64::from(market.eligible(&entry.unit, &self.table.sides(place)));
        }
        total
    }

    // Every unit with its eligible energy, and its lots of the market's side with what is left of each,
    // where lots of this kind serve that side.
    fn candidates<L: Filler, M: Market>(&self, market: &M) -> Candidates<L>
        ensures enters_every_unit { L.Lot.serves (M.Market.model market.now).side ≡ true → Entered L.Lot.figures (M.Market.model market.now) (ledger_of self.now.book.now).units (ledger_of self.now.book.now).rows result }
    {
        let mut candidates = Candidates::new(L::none());
        for (place, entry) in self.book.units.as_slice().iter().enumerate() {
            let eligible = market.eligible(&entry.unit, &self.table.sides(place));
            let list = L::lots_of(market.side(), &entry.unit);
            let figures = entry.unit.figures;
            enter(
                &mut candidates,
                figures,
                eligible,
                list.as_slice(),
                &self.table,
                place,
            );
        }
        candidates
    }

    // The lots that a selection of this demand takes, in merit order, with lots of a kind that serves the market's side.
    pub(crate) fn choose<L: Filler, M: Market, R: TieRule>(
        &self,
        market: &M,
        rule: &R,
        demand: u32,
    ) -> Choice<L>
        ensures takes_what_a_selection_takes_after_closing { self.now.book.now.closed ≡ true → L.Lot.serves (M.Market.model market.now).side ≡ true → commitments L.Lot.figures result ≡ map commitment (selection (M.Market.model market.now) (R.TieRule.model rule.now) demand (ledger_of self.now.book.now)) }
    {
        choose(self.candidates(market), rule, demand)
    }
}

impl Book {
    // The book with what stands of every unit.
    pub(crate) fn stood(&self) -> Stood<'_>
        ensures is_this_book { result.book.now ≡ self.now }
    {
        Stood {
            book: self,
            table: StandingTable::of(self.units.as_slice(), self.rows.as_slice()),
        }
    }

    // The lots that a selection of this demand takes, in merit order, with lots of a kind that serves the market's side.
    // Nothing is changed, and no refusal of a selection is asked. Market, rule and demand are parameters as in `select`.
    pub fn choose<L: Filler, M: Market, R: TieRule>(
        &self,
        market: &M,
        rule: &R,
        demand: u32,
    ) -> Choice<L>
        ensures takes_what_a_selection_takes_after_closing { self.now.closed ≡ true → L.Lot.serves (M.Market.model market.now).side ≡ true → commitments L.Lot.figures result ≡ map commitment (selection (M.Market.model market.now) (R.TieRule.model rule.now) demand (ledger_of self.now)) }
    {
        self.stood().choose(market, rule, demand)
    }
}
