// The book of one settlement interval: units, rows, and the calls that change them.
#![tactic(auto)]

ghost use Rattle.ledger.specs.Reach.{Reached};
ghost use Rattle.book.specs.Tables.{units_of, rows_of};

use crate::tables::{RowTable, UnitTable};

pub mod calls;
pub mod choosing;
pub mod marginal;
pub mod readers;
pub mod selecting;
pub mod slip;
pub mod standings;
mod sums;
pub mod tables;

// A book: what is registered, declared, notified and offered, and what was selected of it.
// `given` is the last number that a selection was given. It takes no memory but its own.
// A book is always one that some list of calls leads to: a ghost field says so, and not a model,
// whose invariant nobody could read who holds a book.
#[derive(Drop)]
pub struct Book {
    units: UnitTable,
    rows: RowTable,
    closed: bool,
    given: u16,
    ghost reached: { Reached closed (units_of units) (rows_of rows) given },
}

#[cfg(test)]
mod tests;
