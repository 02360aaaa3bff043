// The band lots of a unit.
ghost use Rattle.std.specs.Prelude.{◌≡◌, true, map, filter};
ghost use Rattle.units.specs.declared.side.Side.TheVariants.{Band};
ghost use Rattle.units.specs.Pairs.{price_in_range};
ghost use Rattle.lots.specs.Lots.{band_lot, parts, some};
ghost use Rattle.lots.specs.Values.{spans_of, listed, band_figures, band_serves};
ghost use Rattle.std.proofs.Common.{rules};

use super::{BandLot, Filler, Lot};
use crate::list::LotList;
use crate::span::{Span, Stack};
use units::side::Side;
use units::unit::GeneratingUnit;

impl Lot for BandLot {
    ghost figures = { band_figures };

    ghost serves = { band_serves };

    ghost small = { Prim.search rules };

    ghost aligned = { Prim.search rules };

    fn up(&self) -> u8 {
        self.upper
    }

    fn down(&self) -> u8 {
        self.lower
    }

    fn size(&self) -> u32 {
        self.size
    }

    fn cost(&self) -> i32 {
        self.cost
    }

    fn lots_of(side: Side, unit: &GeneratingUnit) -> LotList<BandLot> {
        match side {
            Side::Up | Side::Down => LotList::new(),
            Side::Band => Stack::of(unit).band_lots(),
        }
    }
}

impl Filler for BandLot {
    fn none() -> BandLot {
        Self::default()
    }
}

fn band_lot(n: u32, s: &Span, t: &Span) -> BandLot
    requires upper_priced { price_in_range s.now.price ≡ true }
    requires lower_priced { price_in_range t.now.price ≡ true }
    ensures is_the_run_in_both { band_figures result ≡ band_lot n s.now t.now }
{
    let high = s.top.saturating_sub(n).min(n.saturating_sub(t.bottom));
    let low = s.bottom.saturating_sub(n).max(n.saturating_sub(t.top));
    BandLot {
        upper: s.number,
        lower: t.number,
        size: high.saturating_sub(low),
        cost: s.price - t.price,
    }
}

impl Stack {
    // The lots on both sides of the notification, upper pairs upward, lower pairs downward.
    fn band_lots(&self) -> LotList<BandLot>
        ensures lists_the_band_lots { map band_figures (listed result) ≡ filter some (parts Band self.now.notification (spans_of self.now)) }
    {
        let spans = self.spans.as_slice();
        let mut list = LotList::new();
        for s in spans {
            // No megawatt of a pair at or below the notification lies above it.
            if s.top > self.notification {
                for t in spans.iter().rev() {
                    let lot = band_lot(self.notification, s, t);
                    list.add(lot, lot.size);
                }
            }
        }
        list
    }
}
