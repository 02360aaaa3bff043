// The marginal prices of the markets.
ghost use Rattle.std.specs.Prelude.{◌≡◌, map};
ghost use Rattle.ledger.specs.Marginal.{price_of_pair, row_price, upper_price, lower_price, highest, lowest, rows_of_market, settled, marginal_numbered};
ghost use Rattle.book.specs.Tables.{units_of};
ghost use Rattle.book.specs.Books.{ledger_of};
ghost use Rattle.book.specs.Marginals.{marginal_or_none, marginal_answer};

use crate::Book;
use crate::tables::UnitTable;
use ledger::row::Row;
use units::pair::Pair;
use units::refusal::Refusal;
use units::side::{MarketNumber, Side};

// The price that settles a market: the highest of an up market, the lowest of a down market,
// one of each for band.
#[derive(Clone, Copy, Debug, PartialEq, Eq, Hash)]
pub enum MarginalPrice {
    Up(i32),
    Down(i32),
    Band { highest: i32, lowest: i32 },
}

// The price of the pair with this number, counted from 1; 0 if there is none, as the ledger has it.
fn pair_price(pairs: &[Pair], number: u8) -> i32
    ensures is_the_price_of_the_pair { result ≡ price_of_pair number pairs.now }
{
    match number.checked_sub(1) {
        Some(place) => pairs.get(usize::from(place)).map_or(0, |pair| pair.price),
        None => 0,
    }
}

// The price of a pair in the offer of the unit with this number.
fn row_price(units: &UnitTable, unit: u16, pair: u8) -> i32
    ensures is_the_price_in_the_offer { result ≡ row_price (units_of units.now) unit pair }
{
    match units.find(unit).and_then(|found| found.unit.offer) {
        Some(offer) => pair_price(offer.pairs(), pair),
        None => 0,
    }
}

// The highest upper price of a market's rows.
// Two folds, for the highest and the lowest: one function for both would take three closures, and say less.
// The closure tests the market, since a chain with `filter` takes longer over the rows of other markets.
fn highest_upper(units: &UnitTable, rows: &[Row], market: MarketNumber) -> Option<i32>
    ensures is_the_highest { result ≡ highest (map (upper_price (units_of units.now)) (rows_of_market market rows.now)) }
{
    rows.iter().fold(None, |best: Option<i32>, row| {
        if row.market == market {
            let price = row_price(units, row.unit, row.up);
            Some(best.map_or(price, |highest| highest.max(price)))
        } else {
            best
        }
    })
}

// The lowest lower price of a market's rows.
fn lowest_lower(units: &UnitTable, rows: &[Row], market: MarketNumber) -> Option<i32>
    ensures is_the_lowest { result ≡ lowest (map (lower_price (units_of units.now)) (rows_of_market market rows.now)) }
{
    rows.iter().fold(None, |best: Option<i32>, row| {
        if row.market == market {
            let price = row_price(units, row.unit, row.down);
            Some(best.map_or(price, |lowest| lowest.min(price)))
        } else {
            best
        }
    })
}

// What settles a market of this side, of its highest upper and its lowest lower price.
fn settled(side: Side, upper: Option<i32>, lower: Option<i32>) -> Option<MarginalPrice>
    ensures is_settled_by_its_side { marginal_or_none result ≡ settled side upper lower }
{
    match (side, upper, lower) {
        (Side::Up, Some(highest), _) => Some(MarginalPrice::Up(highest)),
        (Side::Down, _, Some(lowest)) => Some(MarginalPrice::Down(lowest)),
        (Side::Band, Some(highest), Some(lowest)) => Some(MarginalPrice::Band { highest, lowest }),
        _ => None,
    }
}

impl Book {
    // The marginal price of the market with this number; none where no row of it stands.
    // Any number may be asked: one of no market is refused.
    pub fn marginal_price(&self, number: u8) -> Result<Option<MarginalPrice>, Refusal>
        ensures is_the_marginal_price_or_refused_by_1 { marginal_answer result ≡ marginal_numbered number (ledger_of self.now) }
    {
        let market = MarketNumber::try_from(number)?;
        let rows = self.rows.as_slice();
        let highest = highest_upper(&self.units, rows, market);
        let lowest = lowest_lower(&self.units, rows, market);
        Ok(settled(market.side(), highest, lowest))
    }
}
