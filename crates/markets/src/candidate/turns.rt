// One turn of choosing: the lot that goes first is looked at.
ghost use Rattle.std.specs.Prelude.{◌≡◌, min, length};
ghost use Rattle.markets.specs.Merit.{before};
ghost use Rattle.markets.specs.Candidates.{queue, queues};
ghost use Rattle.markets.specs.Turns.{seen, Heads, earlier, Leads, Took};

use super::{Candidate, Candidates, Left};
use crate::choice::Chosen;
use crate::rule::TieRule;
use lots::lot::Lot;
use std::cmp::Ordering;
use units::figures::Figures;

// The next lot of the unit at a place, with the unit's figures.
#[derive(Clone, Copy, Debug, PartialEq, Eq, Hash)]
struct Front<L> {
    place: usize,
    figures: Figures,
    left: Left<L>,
}

// Whether one lot goes before another: by cost, and by the tie rule at equal cost.
fn goes_before<L: Lot, R: TieRule>(rule: &R, a: &Front<L>, b: &Front<L>) -> bool
    ensures tells_the_merit_order { result ≡ before (R.TieRule.model rule.now) (seen L.Lot.figures a.now) (seen L.Lot.figures b.now) }
{
    match a.left.lot.cost().cmp(&b.left.lot.cost()) {
        Ordering::Less => true,
        Ordering::Greater => false,
        Ordering::Equal => rule.first(&a.figures, &b.figures),
    }
}

// The one of two lots that goes first, where there are two.
fn first_of_two<L: Lot, R: TieRule>(
    rule: &R,
    held: Option<Front<L>>,
    next: Option<Front<L>>,
) -> Option<Front<L>>
    ensures is_the_earlier { result ≡ earlier (R.TieRule.model rule.now) L.Lot.figures held next }
{
    match (&held, &next) {
        (Some(a), Some(b)) if goes_before(rule, b, a) => next,
        (None, _) => next,
        _ => held,
    }
}

// What is taken of a lot: the least of what is left of it, what is eligible of its unit, and what is unfilled.
fn part_of(rest: u32, eligible: u32, unfilled: u32) -> u32
    ensures is_the_least { result ≡ min rest (min eligible unfilled) }
{
    rest.min(eligible.min(unfilled))
}

impl<L: Lot> Candidates<L> {
    // The next lot of a unit, which stands at this place.
    fn front(&self, place: usize, unit: &Candidate) -> Option<Front<L>>
        ensures is_the_next_lot { Heads L.Lot.figures (queue L.Lot.figures self.now.lots.items unit.now) place result }
    {
        if unit.count == 0 {
            return None;
        }
        let left = *self.lots.as_slice().get(unit.next)?;
        Some(Front {
            place,
            figures: unit.figures,
            left,
        })
    }

    // The first of all the next lots.
    fn first_of<R: TieRule>(&self, rule: &R) -> Option<Front<L>>
        ensures leads_all { Leads (R.TieRule.model rule.now) L.Lot.figures (queues L.Lot.figures self.now) (length self.now.units.items) result }
    {
        let mut best = None;
        for (place, unit) in self.units.iter().enumerate() {
            best = first_of_two(rule, best, self.front(place, unit));
        }
        best
    }

    // Takes from the lot that goes first, and moves on past it.
    pub(crate) fn take_first<R: TieRule>(&mut self, rule: &R, unfilled: u32) -> Option<Chosen<L>>
        ensures takes_from_the_first_lot { Took (R.TieRule.model rule.now) L.Lot.figures unfilled self.old self.new result }
    {
        let first = self.first_of(rule)?;
        let unit = self.units.get_mut(first.place)?;
        let part = part_of(first.left.rest, unit.eligible, unfilled);
        unit.eligible -= part;
        unit.next += 1;
        unit.count -= 1;
        Some(Chosen {
            unit: unit.figures.number,
            lot: first.left.lot,
            megawatts: part,
        })
    }
}
