// The book's fixed tables. They take no memory but their own.
ghost use Rattle.std.specs.Prelude.{◌≡◌, ◌<◌, ◌≤◌, true, [], ◌∷◌, ◌++◌, map, length, None, MatchOption, slice_set, nat_le};
ghost use Rattle.units.specs.Pairs.{price_in_range};
ghost use Rattle.units.specs.Units.{state_of, closed_at};
ghost use Rattle.ledger.specs.Ledger.{unit_named};
ghost use Rattle.book.specs.Places.{FoundAt};
ghost use Rattle.book.specs.StandingTables.{FirstNumbered, NoneNumbered};

use arrayvec::ArrayVec;
use units::figures::Figures;
use units::unit::GeneratingUnit;

mod rows;

pub use rows::RowTable;

// What the book keeps of a unit. Markets, lots and comparisons see the unit alone.
#[derive(Clone, Copy, Debug, PartialEq, Eq, Hash)]
pub struct UnitEntry {
    pub unit: GeneratingUnit,
}

// What stands where no unit does. By hand, since a unit has ghost fields.
impl Default for UnitEntry {
    ghost use Rattle.std.specs.Prelude.{◌≡◌};
    ghost use Rattle.book.specs.Tables.{unit_of, no_unit};

    ghost is_default = { λ e. unit_of e ≡ no_unit };

    fn default() -> UnitEntry {
        UnitEntry {
            unit: GeneratingUnit::new(Figures::default()),
        }
    }
}

// Up to 32 units, in order of registration.
#[derive(Drop)]
pub struct UnitTable {
    entries: ArrayVec<UnitEntry, 32>,
    ghost within: { length entries.items ≤ 32 },
}

// A unit of a table, with its place there.
#[derive(Clone, Copy, Debug, PartialEq, Eq, Hash)]
pub struct Found {
    pub place: usize,
    pub unit: GeneratingUnit,
}

impl UnitTable {
    ghost use Rattle.book.specs.Tables.{unit_of, units_of};

    pub(crate) fn new() -> UnitTable
        ensures has_no_units { units_of result ≡ [] }
    {
        UnitTable {
            entries: ArrayVec::new(),
        }
    }

    pub(crate) fn is_full(&self) -> bool
        ensures tells_whether_32_stand { result ≡ nat_le 32 (length (units_of self.now)) }
    {
        self.entries.is_full()
    }

    pub(crate) fn as_slice(&self) -> &[UnitEntry]
        ensures lends_the_units { map unit_of result.now ≡ units_of self.now }
    {
        self.entries.as_slice()
    }

    // The place of the first unit with this number.
    pub(crate) fn place_of(units: &[UnitEntry], number: u16) -> Option<usize>
        ensures finds_the_first { MatchOption result (NoneNumbered number (map unit_of units.now)) (λ p. FirstNumbered number (map unit_of units.now) p) }
    {
        units
            .iter()
            .position(|entry| entry.unit.figures.number == number)
    }

    // The unit with this number, and where it stands.
    pub(crate) fn find(&self, number: u16) -> Option<Found>
        ensures finds_the_unit { MatchOption result (unit_named number (units_of self.now) ≡ None) (λ f. FoundAt number (units_of self.now) f.place (state_of f.unit)) }
    {
        let place = Self::place_of(&self.entries, number)?;
        Some(Found {
            place,
            unit: self.entries[place].unit,
        })
    }

    // Adds a unit at the end.
    pub(crate) fn push(&mut self, unit: GeneratingUnit)
        requires { length (units_of self.old) < 32 }
        ensures adds_at_the_end { units_of self.new ≡ units_of self.old ++ state_of unit ∷ [] }
    {
        self.entries.push(UnitEntry { unit });
    }

    // Puts a unit in the place of another. A call changes a copy and puts it back: tried in place,
    // the loan of a unit out of the table did not prove.
    pub(crate) fn put(&mut self, place: usize, unit: GeneratingUnit)
        requires { place < length (units_of self.old) }
        ensures changes_one_unit { units_of self.new ≡ slice_set (units_of self.old) place (state_of unit) }
    {
        self.entries[place].unit = unit;
    }

    // Gives every unit without an offer one at this price.
    pub(crate) fn close(&mut self, price: i32)
        requires { price_in_range price ≡ true }
        ensures closes_every_unit { units_of self.new ≡ map (closed_at price) (units_of self.old) }
    {
        for entry in self.entries.iter_mut() {
            // No unit refuses a price in range.
            let _ = entry.unit.close(price);
        }
    }
}
