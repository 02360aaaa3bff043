// A generating unit.
ghost use Rattle.std.specs.Prelude.{◌≡◌, ℕ, ◌≤◌, Bool, true, false, is_ok, if◌then◌else◌, Some, None};
ghost use Rattle.units.specs.Refusals.{refused_by};
ghost use Rattle.units.specs.Pairs.{summed, price_in_range};
ghost use Rattle.units.specs.Offers.{pairs_of, offer_of};
ghost use Rattle.units.specs.Totals.{offered_total};
ghost use Rattle.units.specs.Moves.{moved, SameOffer};

use crate::figures::Figures;
use crate::offer::Offer;
use crate::pair::Pair;
use crate::refusal::Refusal;

// A unit of the book, with what is declared, notified and offered of it.
#[derive(Clone, Copy, Debug, PartialEq, Eq, Hash)]
pub struct GeneratingUnit {
    pub figures: Figures,
    pub availability: u16,
    pub notification: u16,
    pub offer: Option<Offer>,
    ghost small: { figures.installed ≤ 65535 },
    ghost notified: { notification ≤ availability },
    ghost available: { availability ≤ figures.installed },
    ghost offered: { offered_total figures.installed offer ≡ figures.installed },
}

// The offer after the notification went from one figure to another: moved, if the book is closed.
// What it sums to is asked: only an offer of a unit is known to sum to installed power.
fn after_notice(closed: bool, offer: Option<Offer>, from: u16, to: u16) -> Option<Offer>
    requires { summed (offer_of offer) ≤ 65535 }
    ensures moves_only_after_closing { offer_of result ≡ (if closed then moved from to (offer_of offer) else offer_of offer) }
    ensures still_sums_to_installed_power { (n : ℕ) → from ≤ n → to ≤ n → offered_total n offer ≡ n → offered_total n result ≡ n }
{
    if !closed {
        return offer;
    }
    let mut shifted = offer?;
    shifted.shift(from, to);
    Some(shifted)
}

impl GeneratingUnit {
    ghost use Rattle.units.specs.Units.{state_of, new_unit, may_declare, declared, may_notify, notified, offer_refusal, offering, closed_at};

    // A unit as it is registered.
    pub fn new(figures: Figures) -> GeneratingUnit
        ensures starts_with_nothing_declared { state_of result ≡ new_unit figures }
    {
        GeneratingUnit {
            figures,
            availability: 0,
            notification: 0,
            offer: None,
        }
    }

    // Declares availability, between the notification and installed power.
    pub fn declare(&mut self, megawatts: u16) -> Result<(), Refusal>
        ensures refused_outside_its_bounds { refused_by result ≡ (if may_declare megawatts (state_of self.old) then None else Some 8) }
        ensures only_availability_changes { state_of self.new ≡ (if is_ok result then declared megawatts (state_of self.old) else state_of self.old) }
    {
        if megawatts < self.notification || megawatts > self.figures.installed {
            return Err(Refusal::BoundBroken);
        }
        self.availability = megawatts;
        Ok(())
    }

    // Notifies a figure up to availability; after closing that moves the offer.
    pub fn notify(&mut self, closed: bool, megawatts: u16) -> Result<(), Refusal>
        ensures refused_above_availability { refused_by result ≡ (if may_notify megawatts (state_of self.old) then None else Some 8) }
        ensures notification_and_offer_change { state_of self.new ≡ (if is_ok result then notified closed megawatts (state_of self.old) else state_of self.old) }
        ensures moved_offer_keeps_its_megawatts_prices { is_ok result ≡ true → closed ≡ true → SameOffer self.old.notification self.new.notification (state_of self.old).offer (state_of self.new).offer }
    {
        if megawatts > self.availability {
            return Err(Refusal::BoundBroken);
        }
        self.offer = after_notice(closed, self.offer, self.notification, megawatts);
        self.notification = megawatts;
        Ok(())
    }

    // Makes an offer in place of the one held, if its prices rise and it sums to installed power.
    pub fn offer(&mut self, offer: Offer) -> Result<(), Refusal>
        ensures refused_by_the_first_line { refused_by result ≡ offer_refusal (pairs_of offer) (state_of self.old) }
        ensures only_the_offer_changes { state_of self.new ≡ (if is_ok result then offering (pairs_of offer) (state_of self.old) else state_of self.old) }
    {
        if !offer.prices_rise() {
            return Err(Refusal::PricesNotRising);
        }
        if !offer.sums_to(self.figures.installed) {
            return Err(Refusal::SumDiffers);
        }
        self.offer = Some(offer);
        Ok(())
    }

    // Gives a unit without an offer one pair: installed power at the closing price.
    pub fn close(&mut self, price: i32) -> Result<(), Refusal>
        ensures refused_at_a_price_out_of_range { refused_by result ≡ (if price_in_range price then None else Some 1) }
        ensures only_a_missing_offer_is_made { state_of self.new ≡ (if is_ok result then closed_at price (state_of self.old) else state_of self.old) }
    {
        let quantity = u32::from(self.figures.installed);
        let offer = Offer::single(Pair { quantity, price }).ok_or(Refusal::OutOfRange)?;
        if self.offer.is_none() {
            self.offer = Some(offer);
        }
        Ok(())
    }
}
