// Pairs of an offer.
ghost use Rattle.std.specs.Prelude.{◌≡◌};
ghost use Rattle.units.specs.Pairs.{price_in_range, pair_in_range};

// So many megawatts at a price, in bani per megawatt.
// A quantity has 32 bits, since a move adds to a pair before it takes off.
#[derive(Clone, Copy, Debug, Default, PartialEq, Eq, Hash)]
pub struct Pair {
    pub quantity: u32,
    pub price: i32,
}

// Whether a price lies in its range.
pub fn is_price(price: i32) -> bool
    ensures tells_the_range { result ≡ price_in_range price }
{
    (-10000000..=10000000).contains(&price)
}

impl Pair {
    // Whether quantity and price lie in their ranges.
    pub fn in_range(&self) -> bool
        ensures tells_the_ranges { result ≡ pair_in_range self.now }
    {
        (1..=5000).contains(&self.quantity) && is_price(self.price)
    }
}
