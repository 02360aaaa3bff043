// What a book shows to whoever looks at it.
ghost use Rattle.std.specs.Prelude.{◌≡◌, map};
ghost use Rattle.book.specs.Tables.{unit_of};
ghost use Rattle.book.specs.Books.{ledger_of};

use crate::Book;
use crate::tables::UnitEntry;
use ledger::row::Row;

impl Book {
    // The units in order of registration.
    pub fn units(&self) -> &[UnitEntry]
        ensures lends_the_units_of_the_ledger { map unit_of result.now ≡ (ledger_of self.now).units }
    {
        self.units.as_slice()
    }

    // The rows that stand, by selection number and merit order.
    pub fn rows(&self) -> &[Row]
        ensures lends_the_rows_of_the_ledger { result.now ≡ (ledger_of self.now).rows }
    {
        self.rows.as_slice()
    }

    pub fn is_closed(&self) -> bool
        ensures tells_whether_the_ledger_is_closed { result ≡ (ledger_of self.now).closed }
    {
        self.closed
    }
}
