// The rows of a book: adding, confirming and removing those of selections.
ghost use Rattle.std.specs.Prelude.{◌≡◌, ◌+◌, ◌≤◌, not, [], ◌++◌, map, length, drop, is_ok, if◌then◌else◌, Some, None, nat_le};
ghost use Rattle.units.specs.declared.side.Side.TheVariants.{Band};
ghost use Rattle.units.specs.Refusals.{refused_by};
ghost use Rattle.markets.specs.Candidates.{commitment_in};
ghost use Rattle.ledger.specs.Ledger.{has_rows};
ghost use Rattle.ledger.specs.Selections.{of_side};
ghost use Rattle.ledger.specs.Selecting.{energy_stands};
ghost use Rattle.ledger.specs.Settling.{with_confirmed, without};
ghost use Rattle.book.specs.Adding.{row_by};

use arrayvec::ArrayVec;
use ledger::row::{Row, State};
use lots::lot::Lot;
use markets::choice::Chosen;
use units::refusal::Refusal;
use units::side::MarketNumber;

// Up to 512 rows, in the order in which they were selected.
#[derive(Drop)]
pub struct RowTable {
    rows: ArrayVec<Row, 512>,
    ghost within: { length rows.items ≤ 512 },
}

// The row of a chosen lot: open, with the numbers of the selection and of its market.
fn row_of<L: Lot>(selection: u16, market: MarketNumber, chosen: &Chosen<L>) -> Row
    ensures is_the_row_of_the_lot { result ≡ row_by selection market (commitment_in L.Lot.figures chosen.now) }
{
    Row {
        selection,
        market,
        unit: chosen.unit,
        up: chosen.lot.up(),
        down: chosen.lot.down(),
        megawatts: chosen.megawatts,
        cost: chosen.lot.cost(),
        state: State::Open,
    }
}

// Whether a row is of an up or a down lot.
fn is_energy(row: &Row) -> bool
    ensures tells_whether_it_is_of_one_pair { result ≡ not (of_side Band row.now) }
{
    row.up == 0 || row.down == 0
}

impl RowTable {
    ghost use Rattle.book.specs.Tables.{rows_of};

    pub(crate) fn new() -> RowTable
        ensures has_no_rows { rows_of result ≡ [] }
    {
        RowTable {
            rows: ArrayVec::new(),
        }
    }

    pub(crate) fn as_slice(&self) -> &[Row]
        ensures lends_the_rows { result.now ≡ rows_of self.now }
        ensures are_few { length result.now ≤ 512 }
    {
        self.rows.as_slice()
    }

    // Whether some row is of this unit.
    pub(crate) fn has_unit(&self, number: u16) -> bool
        ensures tells_whether_rows_stand { result ≡ has_rows number (rows_of self.now) }
    {
        self.rows.iter().any(|row| row.unit == number)
    }

    // Whether some row is of an up or a down lot.
    pub(crate) fn has_energy(&self) -> bool
        ensures tells_whether_energy_stands { result ≡ energy_stands (rows_of self.now) }
    {
        self.rows.iter().any(is_energy)
    }

    // Adds a row for each chosen lot, if there is room for all of them.
    pub(crate) fn add<L: Lot>(
        &mut self,
        chosen: &[Chosen<L>],
        selection: u16,
        market: MarketNumber,
    ) -> Result<(), Refusal>
        ensures tells_whether_there_is_room { refused_by result ≡ (if nat_le (length (rows_of self.old) + length chosen.now) 512 then None else Some 15) }
        ensures adds_a_row_for_each_or_changes_nothing { rows_of self.new ≡ (if is_ok result then rows_of self.old ++ map (row_by selection market) (map (commitment_in L.Lot.figures) chosen.now) else rows_of self.old) }
    {
        if self.rows.remaining_capacity() < chosen.len() {
            return Err(Refusal::RowsFull);
        }
        for lot in chosen {
            self.rows.push(row_of(selection, market, lot));
        }
        Ok(())
    }

    // Confirms the rows of the selection with this number.
    pub(crate) fn confirm(&mut self, selection: u16)
        ensures confirms_the_rows_of_the_selection { rows_of self.new ≡ with_confirmed selection (rows_of self.old) }
    {
        for row in self.rows.iter_mut() {
            if row.selection == selection {
                row.state = State::Confirmed;
            }
        }
    }

    // Takes the rows of the selection with this number out; the others keep their order.
    pub(crate) fn remove(&mut self, selection: u16)
        ensures removes_the_rows_of_the_selection { rows_of self.new ≡ without selection (rows_of self.old) }
    {
        self.rows.retain(|row| row.selection != selection);
    }
}
