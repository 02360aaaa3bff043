// Lots as values: energy lots, with one pair, and band lots, with two.
ghost use denote.Memory.{lone};
ghost use Rattle.std.specs.Prelude.{◌≡◌, ◌≤◌, Bool, [], map, if◌then◌else◌};
ghost use prog.Memory.{size as bytes, align as alignment};
ghost use Rattle.units.specs.declared.side.Side.{Side};
ghost use Rattle.units.specs.Units.{state_of};
ghost use Rattle.lots.specs.Lots.{LotFigures, no_lot, lots};
ghost use Rattle.lots.specs.Values.{listed};

use crate::list::LotList;
use units::side::Side;
use units::unit::GeneratingUnit;

pub mod band;
pub mod energy;

// The side on which an energy lot lies.
#[derive(Clone, Copy, Debug, Default, PartialEq, Eq, Hash)]
pub enum Way {
    #[default]
    Up,
    Down,
}

// A pair's part above or below the notification: its size in megawatts, and the cost of one of them.
#[derive(Clone, Copy, Debug, Default, PartialEq, Eq, Hash)]
pub struct EnergyLot {
    pub way: Way,
    pub pair: u8,
    pub size: u32,
    pub cost: i32,
}

// A run of megawatts in an upper and a lower pair at once: its size, and the cost of one of them.
#[derive(Clone, Copy, Debug, Default, PartialEq, Eq, Hash)]
pub struct BandLot {
    pub upper: u8,
    pub lower: u8,
    pub size: u32,
    pub cost: i32,
}

// What is asked of a kind of lots. Pairs are numbers, and 0 is none, as rows and the listing have them.
pub trait Lot: Copy {
    // What a lot means.
    ghost figures: { Self → LotFigures };

    // Whether lots of this kind serve a side.
    ghost serves: { Side → Bool };

    // The upper pair, 0 for none.
    fn up(&self) -> u8
        ensures is_the_upper_pair { result ≡ (figures self.now).up };

    // The lower pair, 0 for none.
    fn down(&self) -> u8
        ensures is_the_lower_pair { result ≡ (figures self.now).down };

    fn size(&self) -> u32
        ensures is_the_size { result ≡ (figures self.now).size };

    fn cost(&self) -> i32
        ensures is_the_cost { result ≡ (figures self.now).cost };

    // The lots of one side of a unit, in rising cost; none of a side that lots of this kind do not serve.
    fn lots_of(side: Side, unit: &GeneratingUnit) -> LotList<Self>
        ensures lists_the_lots_of_a_side_that_is_served { map figures (listed result) ≡ (if serves side then lots side (state_of unit.now) else []) };

    // A lot takes few bytes, so that code over any kind of lots may hold tables of them.
    ghost small: { bytes (lone Self.row.mir) ≤ 64 };

    ghost aligned: { alignment (lone Self.row.mir) ≤ 16 };
}

// A kind of lots with a value that is no lot: it fills room for lots.
// It stands beside `Default`, since its contract says what the value means.
pub trait Filler: Lot {
    // Of no pair and no megawatts.
    fn none() -> Self
        ensures has_no_megawatts { Self.figures result ≡ no_lot };
}
