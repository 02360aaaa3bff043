// Tie rules.
ghost use Rattle.std.specs.Prelude.{◌≡◌};
ghost use Rattle.markets.specs.Rules.{RuleModel};
ghost use Rattle.markets.specs.Either.{by_cases};
ghost use Rattle.markets.specs.Layers.{by_number, faster, priority_last, rate_of, without_priority};

use either::{Either, for_both};
use std::cmp::Ordering;
use units::figures::Figures;
use units::side::Side;

// A tie rule tells which of two units goes first at equal cost.
pub trait TieRule {
    ghost model: { Self → RuleModel };

    fn first(&self, a: &Figures, b: &Figures) -> bool
        ensures tells_as_the_model { result ≡ (model self.now).first a.now b.now };
}

// The bottom rule: the lower number goes first.
#[derive(Clone, Copy, Debug, PartialEq, Eq, Hash)]
pub struct ByNumber;

impl TieRule for ByNumber {
    ghost model = { λ _. by_number };

    fn first(&self, a: &Figures, b: &Figures) -> bool {
        a.number < b.number
    }
}

// Faster first: by the rate of a side, and the rule below where both are as fast.
#[derive(Clone, Copy, Debug, PartialEq, Eq, Hash)]
pub struct Faster<R> {
    pub side: Side,
    pub below: R,
}

fn rate(side: Side, figures: &Figures) -> u16
    ensures is_the_rate_of_the_side { result ≡ rate_of side figures.now }
{
    match side {
        Side::Up | Side::Band => figures.up_rate,
        Side::Down => figures.down_rate,
    }
}

impl<R: TieRule> TieRule for Faster<R> {
    ghost model = { λ s. faster s.side (R.TieRule.model s.below) };

    fn first(&self, a: &Figures, b: &Figures) -> bool {
        match rate(self.side, a).cmp(&rate(self.side, b)) {
            Ordering::Greater => true,
            Ordering::Less => false,
            Ordering::Equal => self.below.first(a, b),
        }
    }
}

// Priority last: a unit without priority goes before one with it, and the rule below where both are alike.
#[derive(Clone, Copy, Debug, PartialEq, Eq, Hash)]
pub struct PriorityLast<R> {
    pub below: R,
}

impl<R: TieRule> TieRule for PriorityLast<R> {
    ghost model = { λ s. priority_last (R.TieRule.model s.below) };

    fn first(&self, a: &Figures, b: &Figures) -> bool {
        if a.marks.priority {
            return b.marks.priority && self.below.first(a, b);
        }
        b.marks.priority || self.below.first(a, b)
    }
}

// One of two rules.
impl<A: TieRule, B: TieRule> TieRule for Either<A, B> {
    ghost model = { by_cases A.TieRule.model B.TieRule.model };

    fn first(&self, a: &Figures, b: &Figures) -> bool {
        for_both!(self, rule => rule.first(a, b))
    }
}
