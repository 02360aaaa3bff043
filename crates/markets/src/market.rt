// Markets.
ghost use Rattle.std.specs.Prelude.{◌≡◌, ◌-◌, ◌||◌, min};
ghost use Rattle.units.specs.Units.{state_of};
ghost use Rattle.markets.specs.Models.{MarketModel};
ghost use Rattle.markets.specs.Either.{by_cases};
ghost use Rattle.markets.specs.Energy.{ramp, nil, below_minimum, band_eligible};
ghost use Rattle.markets.specs.Markets.{up_market, down_market, band_market, market_of};

use either::{Either, for_both};
use lots::standing::Standing;
use units::figures::Class;
use units::side::{MarketNumber, Side};
use units::unit::GeneratingUnit;

// A market tells its side, which is one for all units, and the eligible energy of a unit.
// A unit and what stands of it are two parameters: callers have them apart.
pub trait Market {
    ghost model: { Self → MarketModel };

    fn side(&self) -> Side
        ensures is_the_side_of_the_model { result ≡ (model self.now).side };

    fn eligible(&self, unit: &GeneratingUnit, standing: &Standing) -> u32
        ensures is_the_eligible_energy_of_the_model { result ≡ (model self.now).eligible (state_of unit.now) standing.now };
}

// Whether a unit is notified at 0, or is thermal and notified below its minimum.
fn is_idle(unit: &GeneratingUnit) -> bool
    ensures tells_both_tests { result ≡ (nil (state_of unit.now) || below_minimum (state_of unit.now)) }
{
    if unit.notification == 0 {
        return true;
    }
    unit.figures.class == Class::Thermal && unit.notification < unit.figures.minimum
}

// What a unit reaches in so many minutes at a rate, as far as the room that the band leaves, less what stands.
fn reached(minutes: u16, rate: u16, room: u16, band: u32, stood: u32) -> u32
    ensures is_the_lesser_less_what_stands { result ≡ min (ramp minutes rate) (room - band) - stood }
{
    let ramp = u32::from(minutes) * u32::from(rate);
    let free = u32::from(room).saturating_sub(band);
    ramp.min(free).saturating_sub(stood)
}

fn band_energy(unit: &GeneratingUnit, standing: &Standing) -> u32
    ensures is_the_eligible_energy { result ≡ band_eligible (state_of unit.now) standing.now }
{
    if is_idle(unit) || !unit.figures.marks.qualified {
        return 0;
    }
    let above = unit.availability.saturating_sub(unit.notification);
    let below = unit.notification.saturating_sub(unit.figures.minimum);
    let half = (unit.figures.largest_band / 2).min(above.min(below));
    if half < unit.figures.smallest_band / 2 {
        return 0;
    }
    u32::from(half).saturating_sub(standing.band)
}

// Market 1: secondary regulation band.
#[derive(Clone, Copy, Debug, PartialEq, Eq, Hash)]
pub struct Band;

impl Market for Band {
    ghost model = { λ _. band_market };

    fn side(&self) -> Side {
        Side::Band
    }

    fn eligible(&self, unit: &GeneratingUnit, standing: &Standing) -> u32 {
        band_energy(unit, standing)
    }
}

// Energy up, within so many minutes. Up and down are two types: they differ in the side, the rate, the room
// and what stands, and one type for both would `match` at each.
#[derive(Clone, Copy, Debug, PartialEq, Eq, Hash)]
pub struct UpWithin<const MINUTES: u16>;

impl<const MINUTES: u16> Market for UpWithin<MINUTES> {
    ghost model = { λ _. up_market MINUTES };

    fn side(&self) -> Side {
        Side::Up
    }

    fn eligible(&self, unit: &GeneratingUnit, standing: &Standing) -> u32 {
        if is_idle(unit) {
            return 0;
        }
        let above = unit.availability.saturating_sub(unit.notification);
        reached(
            MINUTES,
            unit.figures.up_rate,
            above,
            standing.band,
            standing.up,
        )
    }
}

// Energy down, within so many minutes.
#[derive(Clone, Copy, Debug, PartialEq, Eq, Hash)]
pub struct DownWithin<const MINUTES: u16>;

impl<const MINUTES: u16> Market for DownWithin<MINUTES> {
    ghost model = { λ _. down_market MINUTES };

    fn side(&self) -> Side {
        Side::Down
    }

    fn eligible(&self, unit: &GeneratingUnit, standing: &Standing) -> u32 {
        if is_idle(unit) {
            return 0;
        }
        let below = unit.notification.saturating_sub(unit.figures.minimum);
        reached(
            MINUTES,
            unit.figures.down_rate,
            below,
            standing.band,
            standing.down,
        )
    }
}

// Market 2: fast energy up, within 15 minutes.
pub type FastUp = UpWithin<15>;

// Market 3: fast energy down, within 15 minutes.
pub type FastDown = DownWithin<15>;

// Market 4: slow energy up, within 30 minutes.
pub type SlowUp = UpWithin<30>;

// Market 5: slow energy down, within 30 minutes.
pub type SlowDown = DownWithin<30>;

// The markets as values.
pub const FAST_UP: FastUp = UpWithin;

pub const FAST_DOWN: FastDown = DownWithin;

pub const SLOW_UP: SlowUp = UpWithin;

pub const SLOW_DOWN: SlowDown = DownWithin;

// The eligible energy of a unit in the market with a number. Each value above stands for its number here.
pub fn eligible_in(market: MarketNumber, unit: &GeneratingUnit, standing: &Standing) -> u32
    ensures is_the_eligible_energy_of_the_market_of_the_number { result ≡ (market_of market).eligible (state_of unit.now) standing.now }
{
    match market {
        MarketNumber::Band => Band.eligible(unit, standing),
        MarketNumber::FastUp => FAST_UP.eligible(unit, standing),
        MarketNumber::FastDown => FAST_DOWN.eligible(unit, standing),
        MarketNumber::SlowUp => SLOW_UP.eligible(unit, standing),
        MarketNumber::SlowDown => SLOW_DOWN.eligible(unit, standing),
    }
}

// One of two markets.
impl<A: Market, B: Market> Market for Either<A, B> {
    ghost model = { by_cases A.Market.model B.Market.model };

    fn side(&self) -> Side {
        for_both!(self, market => market.side())
    }

    fn eligible(&self, unit: &GeneratingUnit, standing: &Standing) -> u32 {
        for_both!(self, market => market.eligible(unit, standing))
    }
}
