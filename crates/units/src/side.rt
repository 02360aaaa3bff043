// Sides of the notification, and the numbers of the markets.
ghost use Rattle.std.specs.Prelude.{◌≡◌};
ghost use Rattle.units.specs.Sides.{market_number, side_of, IsMarketNumbered};

use crate::refusal::Refusal;

// Where a lot lies: above the notification, below it, or on both sides at once.
#[derive(Clone, Copy, Debug, PartialEq, Eq, Hash)]
pub enum Side {
    Up,
    Down,
    Band,
}

// The number that the rows of a selection carry.
#[derive(Clone, Copy, Debug, Default, PartialEq, Eq, Hash)]
pub enum MarketNumber {
    #[default]
    Band = 1,
    FastUp = 2,
    FastDown = 3,
    SlowUp = 4,
    SlowDown = 5,
}

// The market with a number; any other number is out of range.
impl TryFrom<u8> for MarketNumber {
    type Error = Refusal;

    ghost try_from_gives = { IsMarketNumbered };

    fn try_from(number: u8) -> Result<MarketNumber, Refusal> {
        match number {
            1 => Ok(MarketNumber::Band),
            2 => Ok(MarketNumber::FastUp),
            3 => Ok(MarketNumber::FastDown),
            4 => Ok(MarketNumber::SlowUp),
            5 => Ok(MarketNumber::SlowDown),
            _ => Err(Refusal::OutOfRange),
        }
    }
}

// `as` reads the number of a variant; Rust has no other form for it.
impl From<MarketNumber> for u16 {
    ghost from_gives = { λ market n. n ≡ market_number market };

    fn from(market: MarketNumber) -> u16 {
        market as u16
    }
}

impl MarketNumber {
    pub fn side(self) -> Side
        ensures is_the_side_of_the_market { result ≡ side_of self }
    {
        match self {
            MarketNumber::Band => Side::Band,
            MarketNumber::FastUp | MarketNumber::SlowUp => Side::Up,
            MarketNumber::FastDown | MarketNumber::SlowDown => Side::Down,
        }
    }
}
