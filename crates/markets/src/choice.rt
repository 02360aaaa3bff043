// What is chosen.
ghost use Rattle.std.specs.Prelude.{◌≡◌, ◌+◌, ◌^◌, ◌<◌, ◌≤◌, [], ◌∷◌, ◌++◌, length, if◌then◌else◌, nat_lt};

use arrayvec::ArrayVec;
use std::default::MadeWith;

// A lot of any kind of the unit with this number, with the megawatts taken of it.
#[derive(Clone, Copy, Debug, PartialEq, Eq, Hash)]
pub struct Chosen<L> {
    pub unit: u16,
    pub lot: L,
    pub megawatts: u32,
}

impl<L: Copy> MadeWith<L> for Chosen<L> {
    ghost is_made_with = { λ chosen. (chosen.unit ≡ 0) × (chosen.megawatts ≡ 0) };

    fn made_with(lot: L) -> Chosen<L> {
        Chosen {
            unit: 0,
            lot,
            megawatts: 0,
        }
    }
}

// Chosen lots in merit order, and their megawatts in all.
#[derive(Drop)]
pub struct Choice<L> {
    lots: ArrayVec<Chosen<L>, 800, L>,
    megawatts: u32,
    ghost within: { length lots.items ≤ 800 },
}

impl<L: Copy> Choice<L> {
    ghost use Rattle.markets.specs.Candidates.{chosen_in};

    // Nothing chosen; any lot fills the room that is not used.
    pub(crate) fn new(filler: L) -> Choice<L>
        ensures has_no_lots { chosen_in result ≡ [] }
        ensures counts_none { result.megawatts ≡ 0 }
    {
        Choice {
            lots: ArrayVec::new_in(filler),
            megawatts: 0,
        }
    }

    // Adds a lot, unless it is 0 megawatts.
    pub(crate) fn add(&mut self, chosen: Chosen<L>)
        requires room { length (chosen_in self.old) < 800 }
        requires fits { self.old.megawatts + chosen.megawatts < 2 ^ 32 }
        ensures adds_a_lot_with_megawatts { chosen_in self.new ≡ (if nat_lt 0 chosen.megawatts then chosen_in self.old ++ (chosen ∷ []) else chosen_in self.old) }
        ensures counts_one_more_at_most { length (chosen_in self.new) ≤ length (chosen_in self.old) + 1 }
        ensures adds_the_megawatts { self.new.megawatts ≡ self.old.megawatts + chosen.megawatts }
    {
        if chosen.megawatts > 0 {
            self.lots.push(chosen);
            self.megawatts += chosen.megawatts;
        }
    }
}

impl<L> Choice<L> {
    ghost use Rattle.markets.specs.Candidates.{chosen_in};

    // The chosen lots, in merit order.
    pub fn lots(&self) -> &[Chosen<L>]
        ensures lends_the_chosen_lots { result.now ≡ chosen_in self.now }
    {
        self.lots.as_slice()
    }

    // Their megawatts in all.
    pub fn megawatts(&self) -> u32
        ensures tells_the_megawatts { result ≡ self.now.megawatts }
    {
        self.megawatts
    }
}
