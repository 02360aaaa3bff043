// Where the pairs of an offer lie.
ghost use Rattle.std.specs.Prelude.{◌≡◌, ◌+◌, ◌≤◌, true, length};
ghost use Rattle.std.specs.List.{list_all};
ghost use Rattle.units.specs.Pairs.{summed, price_in_range};
ghost use Rattle.units.specs.Units.{state_of};
ghost use Rattle.lots.specs.Spans.{span, stack};

use arrayvec::ArrayVec;
use units::pair::Pair;
use units::unit::GeneratingUnit;

// A pair of an offer, counted from 1, from its bottom up to its top.
#[derive(Clone, Copy, Debug, Default, PartialEq, Eq, Hash)]
pub struct Span {
    pub number: u8,
    pub bottom: u32,
    pub top: u32,
    pub price: i32,
}

// The pairs of a unit's offer where they lie, at most 5, from 0 upward, and the unit's notification.
#[derive(Drop)]
pub(crate) struct Stack {
    pub(crate) notification: u32,
    pub(crate) spans: ArrayVec<Span, 5>,
    ghost priced: { list_all (λ s. price_in_range s.price) spans.items ≡ true },
}

impl Stack {
    ghost use Rattle.lots.specs.Values.{spans_of};

    // A unit without an offer has no pairs.
    pub(crate) fn of(unit: &GeneratingUnit) -> Stack
        ensures stacks_the_offer { spans_of result ≡ stack (state_of unit.now).offer }
        ensures keeps_the_notification { result.notification ≡ unit.now.notification }
    {
        let pairs = match &unit.offer {
            Some(offer) => offer.pairs(),
            None => &[],
        };
        Stack {
            notification: u32::from(unit.notification),
            spans: stacked(pairs),
        }
    }
}

// The premises are no facts of a type: an offer of one pair may have any quantity.
fn stacked(pairs: &[Pair]) -> ArrayVec<Span, 5>
    requires few { length pairs.now ≤ 5 }
    requires small { summed pairs.now ≤ 65535 }
    ensures stacks_the_pairs { result.items ≡ stack pairs.now }
{
    let mut spans = ArrayVec::new();
    let mut bottom = 0;
    for (i, pair) in pairs.iter().enumerate() {
        // the places of five pairs fit a byte
        let s = span_of(i as u8 + 1, bottom, pair);
        spans.push(s);
        bottom = s.top;
    }
    spans
}

fn span_of(number: u8, bottom: u32, pair: &Pair) -> Span
    requires { bottom + pair.now.quantity ≤ 65535 }
    ensures is_the_span { result ≡ span number bottom pair.now }
{
    Span {
        number,
        bottom,
        top: bottom + pair.quantity,
        price: pair.price,
    }
}
