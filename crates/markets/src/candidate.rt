// The units of a selection with their lots.
ghost use Rattle.std.specs.Prelude.{◌≡◌, ◌*◌, ◌≤◌, length, Some, codes};
ghost use Rattle.markets.specs.Places.{furthest, most_lots};

use arrayvec::{ArrayVec, CapacityError};
use std::default::MadeWith;
use std::error::Error;
use std::fmt;
use units::figures::Figures;

mod acts;
mod turns;

// A lot of some kind, and what is left of it.
#[derive(Clone, Copy, Debug, PartialEq, Eq, Hash)]
pub struct Left<L> {
    pub lot: L,
    pub rest: u32,
}

impl<L: Copy> MadeWith<L> for Left<L> {
    ghost is_made_with = { λ left. left.rest ≡ 0 };

    fn made_with(lot: L) -> Left<L> {
        Left { lot, rest: 0 }
    }
}

// A unit: its registered figures, its unused eligible energy, the place of its next lot, and how many of its lots were not looked at yet.
#[derive(Clone, Copy, Debug, Default, PartialEq, Eq, Hash)]
pub struct Candidate {
    pub figures: Figures,
    pub eligible: u32,
    pub next: usize,
    pub count: usize,
}

// Up to 32 units of up to 25 lots, each unit's in rising cost.
// Places in one table stay for speed: with a table of lots in each unit, choosing a small demand took twice the time.
#[derive(Drop)]
pub struct Candidates<L> {
    units: ArrayVec<Candidate, 32>,
    lots: ArrayVec<Left<L>, 800, L>,
    ghost within: { length units.items ≤ 32 },
    ghost room: { length lots.items ≤ 25 * length units.items },
    ghost inside: { furthest units.items ≤ length lots.items },
    ghost few: { most_lots units.items ≤ 25 },
}

// A unit that cannot be added: 32 units stand, or it has more than 25 lots.
#[derive(Clone, Copy, Debug, PartialEq, Eq, Hash)]
pub struct NoRoom;

// By hand, since its contract says what it prints.
impl fmt::Display for NoRoom {
    ghost output = { λ _. Some (codes "no room for the unit or its lots") };

    fn fmt<W: fmt::Write>(&self, f: &mut fmt::Formatter<W>) -> fmt::Result {
        f.write_str("no room for the unit or its lots")
    }
}

impl Error for NoRoom {}

impl From<CapacityError> for NoRoom {
    fn from(_: CapacityError) -> NoRoom {
        NoRoom
    }
}
