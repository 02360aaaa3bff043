// What the open rows of a selection come to.
ghost use Rattle.std.specs.Prelude.{◌≡◌, ◌≤◌, pos, ◌*ℤ◌, neg_ℤ, ◌≤ℤ◌};
ghost use Rattle.ledger.specs.Selecting.{slip_of};
ghost use Rattle.ledger.specs.Settling.{open_rows, is_held};
ghost use Rattle.book.specs.Adding.{is_open_row};
ghost use Rattle.book.specs.Books.{ledger_of};

use crate::Book;
use ledger::row::{Row, State};
use ledger::slip::SlipFigures;

// Whether a row is an open one of the selection with this number.
fn is_open(row: &Row, selection: u16) -> bool
    ensures tells_whether_it_is_open { result ≡ is_open_row selection row.now }
{
    row.state == State::Open && row.selection == selection
}

// The cost of all megawatts of a row.
fn cost_of(row: &Row) -> i64
    ensures multiplies { result ≡ pos row.now.megawatts *ℤ row.now.cost }
    ensures is_small_for_few_megawatts { row.now.megawatts ≤ 5000 → (neg_ℤ (pos 10737418240000) ≤ℤ result) × (result ≤ℤ pos 10737418240000) }
{
    i64::from(row.megawatts) * i64::from(row.cost)
}

impl Book {
    // The number of a selection, and the megawatts and the cost of its open rows.
    pub(crate) fn open_figures(&self, number: u16) -> SlipFigures
        ensures adds_up_the_open_rows { result ≡ slip_of number (open_rows number (ledger_of self.now).rows) }
    {
        let mut megawatts: u32 = 0;
        let mut cost: i64 = 0;
        for row in self.rows.as_slice() {
            if is_open(row, number) {
                megawatts += row.megawatts;
                cost += cost_of(row);
            }
        }
        SlipFigures {
            number,
            megawatts,
            cost,
        }
    }

    // Whether an open selection has these figures.
    pub(crate) fn is_held(&self, figures: &SlipFigures) -> bool
        ensures tells_whether_it_is_held { result ≡ is_held figures.now (ledger_of self.now).rows }
    {
        let rows = self.rows.as_slice();
        rows.iter().any(|row| is_open(row, figures.number))
            && self.open_figures(figures.number) == *figures
    }
}
