// The calls of a book, each by the ledger's step: the same two clauses stand on each, about another call.
ghost use Rattle.std.specs.Prelude.{◌≡◌, Bool};
ghost use Rattle.std.specs.Fn.{FnOnceReturnsAtMut};
ghost use Rattle.units.specs.Units.{UnitState};
ghost use Rattle.ledger.specs.Ledger.{empty};
ghost use Rattle.ledger.specs.Calls.{registering, declaring, notifying, making_offer, closing, step};
ghost use Rattle.book.specs.Books.{ledger_of, answer_of};
ghost use Rattle.book.specs.Changing.{ActsBy, Changes};

use crate::Book;
use crate::tables::{Found, RowTable, UnitTable};
use units::figures::{Figures, Registration};
use units::offer::Offer;
use units::pair::{Pair, is_price};
use units::refusal::Refusal;
use units::unit::GeneratingUnit;

impl Book {
    pub fn new() -> Book
        ensures is_the_empty_ledger { ledger_of result ≡ empty }
    {
        Book {
            units: UnitTable::new(),
            rows: RowTable::new(),
            closed: false,
            given: 0,
        }
    }

    // Adds a unit.
    pub fn register(&mut self, registration: &Registration) -> Result<(), Refusal>
        ensures answers_as_the_ledger { answer_of result ≡ (step (ledger_of self.old) (registering registration.now)).1 }
        ensures is_the_ledger_after_the_call { ledger_of self.new ≡ (step (ledger_of self.old) (registering registration.now)).0 }
    {
        if !registration.in_range() {
            return Err(Refusal::OutOfRange);
        }
        if self.closed {
            return Err(Refusal::AlreadyClosed);
        }
        if self.units.find(registration.number).is_some() {
            return Err(Refusal::NumberTaken);
        }
        if self.units.is_full() {
            return Err(Refusal::UnitsFull);
        }
        if !registration.agrees() {
            return Err(Refusal::FiguresDisagree);
        }
        self.units
            .push(GeneratingUnit::new(Figures::from(*registration)));
        Ok(())
    }

    // The unit with this number as an act of its own leaves it, where the unit has no rows.
    fn changed<F: FnOnce(&mut GeneratingUnit) -> Result<(), Refusal>>(
        &self,
        number: u16,
        megawatts: u16,
        act: F,
    ) -> Result<Found, Refusal>
        requires { F.IsAlwaysCallable act }
        ensures follows_the_lines { (may : UnitState → Bool) (f : UnitState → UnitState) → ActsBy (FnOnceReturnsAtMut F.FnOnce act) may f → Changes may f number megawatts (ledger_of self.now) result }
    {
        if number == 0 || megawatts > 5000 {
            return Err(Refusal::OutOfRange);
        }
        let mut found = self.units.find(number).ok_or(Refusal::NoSuchUnit)?;
        act(&mut found.unit)?;
        if self.rows.has_unit(number) {
            return Err(Refusal::RowsStand);
        }
        Ok(found)
    }

    // Declares the availability of a unit.
    pub fn declare(&mut self, number: u16, megawatts: u16) -> Result<(), Refusal>
        ensures answers_as_the_ledger { answer_of result ≡ (step (ledger_of self.old) (declaring number megawatts)).1 }
        ensures is_the_ledger_after_the_call { ledger_of self.new ≡ (step (ledger_of self.old) (declaring number megawatts)).0 }
    {
        let found = self.changed(number, megawatts, |unit| unit.declare(megawatts))?;
        self.units.put(found.place, found.unit);
        Ok(())
    }

    // Notifies a figure of a unit; after closing that moves its offer.
    pub fn notify(&mut self, number: u16, megawatts: u16) -> Result<(), Refusal>
        ensures answers_as_the_ledger { answer_of result ≡ (step (ledger_of self.old) (notifying number megawatts)).1 }
        ensures is_the_ledger_after_the_call { ledger_of self.new ≡ (step (ledger_of self.old) (notifying number megawatts)).0 }
    {
        let closed = self.closed;
        let found = self.changed(number, megawatts, |unit| unit.notify(closed, megawatts))?;
        self.units.put(found.place, found.unit);
        Ok(())
    }

    // Makes an offer of a unit, in place of the one held.
    pub fn offer(&mut self, number: u16, pairs: &[Pair]) -> Result<(), Refusal>
        ensures answers_as_the_ledger { answer_of result ≡ (step (ledger_of self.old) (making_offer number pairs.now)).1 }
        ensures is_the_ledger_after_the_call { ledger_of self.new ≡ (step (ledger_of self.old) (making_offer number pairs.now)).0 }
    {
        if number == 0 {
            return Err(Refusal::OutOfRange);
        }
        let offer = Offer::new(pairs).ok_or(Refusal::OutOfRange)?;
        if self.closed {
            return Err(Refusal::AlreadyClosed);
        }
        let mut found = self.units.find(number).ok_or(Refusal::NoSuchUnit)?;
        found.unit.offer(offer)?;
        self.units.put(found.place, found.unit);
        Ok(())
    }

    // Closes the book: each unit without an offer gets its installed power at this price.
    pub fn close(&mut self, price: i32) -> Result<(), Refusal>
        ensures answers_as_the_ledger { answer_of result ≡ (step (ledger_of self.old) (closing price)).1 }
        ensures is_the_ledger_after_the_call { ledger_of self.new ≡ (step (ledger_of self.old) (closing price)).0 }
    {
        if !is_price(price) {
            return Err(Refusal::OutOfRange);
        }
        if self.closed {
            return Err(Refusal::AlreadyClosed);
        }
        self.units.close(price);
        self.closed = true;
        Ok(())
    }
}
