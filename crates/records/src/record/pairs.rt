// The pairs that the record of an offer lists. In a file of its own, since a struct with a ghost field may not
// stand beside definitions that name it.
ghost use Rattle.std.specs.Prelude.{◌≡◌, ◌/◌, ◌≤◌, length};
ghost use Rattle.records.specs.Decoding.{pair_at, pairs_from};

use crate::bytes::{figure_at, price_at};
use arrayvec::ArrayVec;
use units::pair::Pair;

// Up to 5 pairs, as a record lists them: not yet checked.
#[derive(Debug, PartialEq, Eq, Hash, Drop)]
pub struct PairList {
    pairs: ArrayVec<Pair, 5>,
    ghost few: { length pairs.items ≤ 5 },
}

impl PairList {
    ghost use Rattle.records.specs.Records.{listed};

    // The pairs of these bytes, each of six.
    #[tactic(auto, using(std::proofs::lemmas::List::take_all, crate::proofs::Listing::pairs_in_parts))]
    pub(crate) fn of(bytes: &[u8]) -> PairList
        requires { length bytes.now ≤ 30 }
        ensures lists_every_pair { listed result ≡ pairs_from (length bytes.now / 6) bytes.now }
    {
        let (parts, _) = bytes.as_chunks::<6>();
        let mut pairs = ArrayVec::new();
        for part in parts {
            pairs.push(pair_of(part));
        }
        PairList { pairs }
    }

    pub fn as_slice(&self) -> &[Pair]
        ensures lends_the_pairs { result.now ≡ listed self.now }
        ensures lends_at_most_five { length result.now ≤ 5 }
    {
        self.pairs.as_slice()
    }
}

// A pair: two bytes of quantity, and four of price.
fn pair_of(bytes: &[u8; 6]) -> Pair
    ensures is_the_pair_there { result ≡ pair_at bytes.now 0 }
{
    Pair {
        quantity: u32::from(figure_at(bytes, 0)),
        price: price_at(bytes, 2),
    }
}
