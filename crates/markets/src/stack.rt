// The stack of tie rules of each market.
ghost use Rattle.std.specs.Prelude.{◌≡◌};
ghost use Rattle.markets.specs.Stacks.{stack_of, stack_model};

use crate::rule::{ByNumber, Faster, PriorityLast};
use either::Either;
use units::side::{MarketNumber, Side};

// Faster over number, and priority over that.
pub type Stack = Either<Faster<ByNumber>, PriorityLast<Faster<ByNumber>>>;

// The stack that a market uses.
pub fn stack_of(market: MarketNumber) -> Stack
    ensures is_the_stack_of_the_market { stack_model result ≡ stack_of market }
{
    let side = market.side();
    let faster = Faster {
        side,
        below: ByNumber,
    };
    match side {
        Side::Up | Side::Band => Either::Left(faster),
        Side::Down => Either::Right(PriorityLast { below: faster }),
    }
}
