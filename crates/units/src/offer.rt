// Offers of a unit.
ghost use Rattle.std.specs.Prelude.{◌≡◌, ℕ, ◌+◌, ◌<◌, ◌≤◌, true, false, [], ◌∷◌, length, take, MatchOption, ◌==◌};
ghost use Rattle.units.specs.Pairs.{summed, price_in_range, prices_in_range, all_in_range, offer_in_range, rises};
ghost use Rattle.units.specs.Moves.{off_front, off_back, moved};

use crate::pair::{Pair, is_price};

// 1 to 5 pairs, stacked from 0 upward.
// An offer is copied with its unit, which the kit's vectors of fixed room cannot be: so it keeps its own array.
#[derive(Clone, Copy, Debug, PartialEq, Eq, Hash)]
pub struct Offer {
    pairs: [Pair; 5],
    count: usize,
    ghost some: { 1 ≤ count },
    ghost few: { count ≤ 5 },
    ghost long: { length pairs ≡ 5 },
    ghost priced: { prices_in_range (take count pairs) ≡ true },
}

fn all_in_range(pairs: &[Pair]) -> bool
    ensures tells_every_range { result ≡ all_in_range pairs.now }
{
    pairs.iter().all(|pair| pair.in_range())
}

// The megawatts of all pairs.
fn total(pairs: &[Pair]) -> u64
    requires { length pairs.now ≤ 5 }
    ensures is_the_sum { result ≡ summed pairs.now }
{
    pairs.iter().map(|pair| u64::from(pair.quantity)).sum()
}

fn rise(pairs: &[Pair]) -> bool
    ensures tells_whether_prices_rise { result ≡ rises pairs.now }
{
    pairs.is_sorted_by(|a, b| a.price < b.price)
}

// The pairs at the front of five.
fn five_of(pairs: &[Pair]) -> [Pair; 5]
    requires { length pairs.now ≤ 5 }
    ensures begins_with_the_pairs { take (length pairs.now) result ≡ pairs.now }
    ensures has_five { length result ≡ 5 }
{
    let mut five = [Pair::default(); 5];
    five[..pairs.len()].copy_from_slice(pairs);
    five
}

// Takes d off from pair 1 forwards.
fn take_off_front(pairs: &mut [Pair], d: u32)
    ensures takes_off_from_the_front { pairs.new ≡ off_front d pairs.old }
{
    let mut left = d;
    for pair in pairs {
        let part = pair.quantity.min(left);
        pair.quantity -= part;
        left -= part;
    }
}

// Takes d off from the last pair backwards.
// By index: to reverse the pairs and back takes longer, and after `iter_mut().rev()` a proof knows no pair.
fn take_off_back(pairs: &mut [Pair], d: u32)
    ensures takes_off_from_the_back { pairs.new ≡ off_back d pairs.old }
{
    let mut left = d;
    for i in (0..pairs.len()).rev() {
        let pair = &mut pairs[i];
        let part = pair.quantity.min(left);
        pair.quantity -= part;
        left -= part;
    }
}

// The premises are no facts of a type: an offer of one pair may have any quantity. From and to are two
// parameters, as in the definition.
fn move_pairs(pairs: &mut [Pair], from: u16, to: u16)
    requires some { 0 < length pairs.old }
    requires small { summed pairs.old ≤ 65535 }
    ensures moves_the_pairs { pairs.new ≡ moved from to pairs.old }
{
    if from < to {
        let rise = u32::from(to - from);
        pairs[0].quantity += rise;
        take_off_back(pairs, rise);
    } else {
        let fall = u32::from(from - to);
        let last = pairs.len() - 1;
        pairs[last].quantity += fall;
        take_off_front(pairs, fall);
    }
}

impl Offer {
    ghost use Rattle.units.specs.Offers.{pairs_of};

    // An offer of these pairs, if there are 1 to 5 and each lies in its range.
    pub fn new(pairs: &[Pair]) -> Option<Offer>
        ensures made_exactly_in_range { MatchOption result (offer_in_range pairs.now ≡ false) (λ o. (offer_in_range pairs.now ≡ true) × (pairs_of o ≡ pairs.now)) }
    {
        let count = pairs.len();
        if count < 1 || count > 5 || !all_in_range(pairs) {
            return None;
        }
        Some(Offer {
            pairs: five_of(pairs),
            count,
        })
    }

    // An offer of one pair, if its price lies in its range.
    pub fn single(pair: Pair) -> Option<Offer>
        ensures made_exactly_of_a_price_in_range { MatchOption result (price_in_range pair.price ≡ false) (λ o. (price_in_range pair.price ≡ true) × (pairs_of o ≡ pair ∷ [])) }
    {
        if !is_price(pair.price) {
            return None;
        }
        Some(Offer {
            pairs: [pair; 5],
            count: 1,
        })
    }

    pub fn pairs(&self) -> &[Pair]
        ensures lends_the_pairs { result.now ≡ pairs_of self.now }
    {
        &self.pairs[..self.count]
    }

    // Whether each price is above the one before.
    pub fn prices_rise(&self) -> bool
        ensures tells_whether_prices_rise { result ≡ rises (pairs_of self.now) }
    {
        rise(self.pairs())
    }

    // Whether the quantities sum to this power.
    pub fn sums_to(&self, installed: u16) -> bool
        ensures tells_the_sum { result ≡ (summed (pairs_of self.now) == installed) }
    {
        total(self.pairs()) == u64::from(installed)
    }

    // Moves the offer as its unit's notification goes from one figure to another. That it sums to so much is asked,
    // as above.
    pub(crate) fn shift(&mut self, from: u16, to: u16)
        requires { summed (pairs_of self.old) ≤ 65535 }
        ensures moves_the_offer { pairs_of self.new ≡ moved from to (pairs_of self.old) }
    {
        let count = self.count;
        move_pairs(&mut self.pairs[0..count], from, to);
    }
}
