// What stands of the units of a book, by their places there: the rows of every unit are added up in one pass.
ghost use Rattle.std.specs.Prelude.{◌≡◌, ℕ, List, [], map, length};
ghost use Rattle.units.specs.Units.{UnitState};
ghost use Rattle.book.specs.Squares.{cell, SixWide};

use crate::tables::{UnitEntry, UnitTable};
use ledger::row::Row;
use lots::standing::Standing;
use units::side::Side;

// What stands of one unit: its up, down and band megawatts, and those of each lot
// by upper and lower pair (0 for none).
#[derive(Clone, Copy, Debug, PartialEq, Eq, Hash)]
pub struct UnitStanding {
    pub sides: Standing,
    pub lots: [[u32; 6]; 6],
    ghost high: { length lots ≡ 6 },
    ghost wide: { SixWide lots },
}

// What stands of up to 32 units, in the order of the book. It is apart from the units, since it is added up
// when it is asked for, in one pass over the rows; every place is in use, so there is no length beside it.
#[derive(Drop)]
pub struct StandingTable {
    units: [UnitStanding; 32],
    ghost long: { length units ≡ 32 },
}

// What stands of a unit without rows. By hand, since none is derived beside ghost fields.
impl Default for UnitStanding {
    ghost use Rattle.book.specs.StandingTables.{StandsOfNothing};

    ghost is_default = { StandsOfNothing };

    fn default() -> UnitStanding {
        UnitStanding {
            sides: Standing::default(),
            lots: [[0; 6]; 6],
        }
    }
}

impl UnitStanding {
    ghost use Rattle.book.specs.StandingTables.{share, no_sides, sides_with, LotsWith};

    // The megawatts of a row that count for a side.
    fn share_of(side: Side, row: &Row) -> u32
        ensures counts_on_its_sides { result ≡ share side row.now }
    {
        let counts = match side {
            Side::Up => row.down == 0,
            Side::Down => row.up == 0,
            Side::Band => row.up != 0 && row.down != 0,
        };
        if counts { row.megawatts } else { 0 }
    }

    // The sides with a row more.
    fn sides_with(sides: Standing, row: &Row) -> Standing
        ensures adds_to_its_sides { result ≡ sides_with sides row.now }
    {
        Standing {
            up: sides.up.saturating_add(Self::share_of(Side::Up, row)),
            down: sides.down.saturating_add(Self::share_of(Side::Down, row)),
            band: sides.band.saturating_add(Self::share_of(Side::Band, row)),
        }
    }

    // What stands with a row more.
    fn with(mut self, row: &Row) -> UnitStanding
        ensures adds_to_its_sides { result.sides ≡ sides_with self.sides row.now }
        ensures adds_to_its_lot { LotsWith self.lots row.now result.lots }
    {
        self.sides = Self::sides_with(self.sides, row);
        let up = usize::from(row.up);
        let down = usize::from(row.down);
        if up < 6 && down < 6 {
            self.lots[up][down] = self.lots[up][down].saturating_add(row.megawatts);
        }
        self
    }

    // The megawatts of the lot with these pairs.
    fn of_lot(&self, up: u8, down: u8) -> u32
        ensures reads_the_lot { result ≡ cell self.now.lots up down }
    {
        let row = self.lots.get(usize::from(up));
        row.and_then(|row| row.get(usize::from(down)))
            .copied()
            .unwrap_or(0)
    }
}

impl StandingTable {
    ghost use Rattle.book.specs.Tables.{unit_of};
    ghost use Rattle.book.specs.StandingTables.{sides_at, lot_at, StandsBy, TakesIn};

    // What stands by no rows.
    fn new() -> StandingTable
        ensures stands_by_no_rows { (us : List UnitState) → StandsBy result us [] }
    {
        StandingTable {
            units: [UnitStanding::default(); 32],
        }
    }

    // What stands of each of these units by these rows. Rows of no unit, and of those
    // from the 33rd on, count for nothing.
    pub(crate) fn of(units: &[UnitEntry], rows: &[Row]) -> StandingTable
        ensures stands_by_the_rows { StandsBy result (map unit_of units.now) rows.now }
    {
        let mut table = StandingTable::new();
        for row in rows {
            table.add(units, row);
        }
        table
    }

    // Adds a row to what stands of its unit.
    fn add(&mut self, units: &[UnitEntry], row: &Row)
        ensures takes_the_row_in { TakesIn self.old (map unit_of units.now) row.now self.new }
    {
        if let Some(place) = UnitTable::place_of(units, row.unit) {
            if place < 32 {
                self.units[place] = self.units[place].with(row);
            }
        }
    }

    // What stands at this place: nothing where no unit does.
    fn unit(&self, place: usize) -> UnitStanding
        ensures has_the_sides { result.sides ≡ sides_at self.now place }
        ensures has_the_lots { (i j : ℕ) → cell result.lots i j ≡ lot_at self.now place i j }
    {
        self.units.get(place).copied().unwrap_or_default()
    }

    // The up, down and band megawatts of the unit at this place, 0 past the table's end.
    pub fn sides(&self, place: usize) -> Standing
        ensures reads_the_sides { result ≡ sides_at self.now place }
    {
        self.unit(place).sides
    }

    // The megawatts of a lot of the unit at this place, 0 where the table has no such place or pair.
    pub fn of_lot(&self, place: usize, up: u8, down: u8) -> u32
        ensures reads_the_lot { result ≡ lot_at self.now place up down }
    {
        self.unit(place).of_lot(up, down)
    }
}
