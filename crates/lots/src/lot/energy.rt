// The energy lots of a unit.
ghost use Rattle.std.specs.Prelude.{◌≡◌, true, map, filter};
ghost use Rattle.units.specs.declared.side.Side.TheVariants.{Up, Down};
ghost use Rattle.units.specs.Pairs.{price_in_range};
ghost use Rattle.lots.specs.Lots.{up_lot, down_lot, parts, some};
ghost use Rattle.lots.specs.Values.{spans_of, listed, energy_figures, energy_serves};
ghost use Rattle.std.proofs.Common.{rules};

use super::{EnergyLot, Filler, Lot, Way};
use crate::list::LotList;
use crate::span::{Span, Stack};
use units::side::Side;
use units::unit::GeneratingUnit;

impl Lot for EnergyLot {
    ghost figures = { energy_figures };

    ghost serves = { energy_serves };

    ghost small = { Prim.search rules };

    ghost aligned = { Prim.search rules };

    fn up(&self) -> u8 {
        match self.way {
            Way::Up => self.pair,
            Way::Down => 0,
        }
    }

    fn down(&self) -> u8 {
        match self.way {
            Way::Up => 0,
            Way::Down => self.pair,
        }
    }

    fn size(&self) -> u32 {
        self.size
    }

    fn cost(&self) -> i32 {
        self.cost
    }

    fn lots_of(side: Side, unit: &GeneratingUnit) -> LotList<EnergyLot> {
        let stack = Stack::of(unit);
        match side {
            Side::Up => stack.up_lots(),
            Side::Down => stack.down_lots(),
            Side::Band => LotList::new(),
        }
    }
}

impl Filler for EnergyLot {
    fn none() -> EnergyLot {
        Self::default()
    }
}

fn up_lot(n: u32, s: &Span) -> EnergyLot
    ensures is_the_part_above { energy_figures result ≡ up_lot n s.now }
{
    EnergyLot {
        way: Way::Up,
        pair: s.number,
        size: s.top.saturating_sub(s.bottom.max(n)),
        cost: s.price,
    }
}

fn down_lot(n: u32, s: &Span) -> EnergyLot
    requires { price_in_range s.now.price ≡ true }
    ensures is_the_part_below { energy_figures result ≡ down_lot n s.now }
{
    EnergyLot {
        way: Way::Down,
        pair: s.number,
        size: s.top.min(n).saturating_sub(s.bottom),
        cost: -s.price,
    }
}

// Two loops: one function for both would take an order and a way to make a lot, and its contract would be longer than a loop.
impl Stack {
    // The lots above the notification, upward.
    fn up_lots(&self) -> LotList<EnergyLot>
        ensures lists_the_up_lots { map energy_figures (listed result) ≡ filter some (parts Up self.now.notification (spans_of self.now)) }
    {
        let mut list = LotList::new();
        for s in self.spans.iter() {
            let lot = up_lot(self.notification, s);
            list.add(lot, lot.size);
        }
        list
    }

    // The lots below the notification, downward.
    fn down_lots(&self) -> LotList<EnergyLot>
        ensures lists_the_down_lots { map energy_figures (listed result) ≡ filter some (parts Down self.now.notification (spans_of self.now)) }
    {
        let mut list = LotList::new();
        for s in self.spans.iter().rev() {
            let lot = down_lot(self.notification, s);
            list.add(lot, lot.size);
        }
        list
    }
}
