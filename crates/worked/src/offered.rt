// What the units of a book offer: their lots, and their eligible energy in each market.
use book::Book;
use lots::lot::{BandLot, EnergyLot, Lot};
use lots::standing::Standing;
use markets::market::{Band, FAST_DOWN, FAST_UP, Market, SLOW_DOWN, SLOW_UP};
use units::side::Side;

// Prints lots of one kind and side of the unit with this number.
fn show_side<L: Lot>(rt: &impl Print, name: &str, number: u16, lots: &[L]) -> anyhow::Result<()> {
    for lot in lots {
        let up = lot.up();
        let down = lot.down();
        let size = lot.size();
        let cost = lot.cost();
        println!(rt; "{number:>6}  {name:<6}{up:>3}{down:>6}{size:>11}{cost:>10}")?;
    }
    Ok(())
}

// Prints every lot of the units, in rising cost for each unit and side.
pub fn show_lots(rt: &impl Print, book: &Book) -> anyhow::Result<()> {
    println!(rt; "  unit  side   up  down  megawatts      cost")?;
    for entry in book.units() {
        let unit = &entry.unit;
        let number = unit.figures.number;
        let above = EnergyLot::lots_of(Side::Up, unit);
        show_side(rt, "up", number, above.as_slice())?;
        let below = EnergyLot::lots_of(Side::Down, unit);
        show_side(rt, "down", number, below.as_slice())?;
        let both = BandLot::lots_of(Side::Band, unit);
        show_side(rt, "band", number, both.as_slice())?;
    }
    println!(rt; "")?;
    Ok(())
}

// Prints the eligible energy of the units in each market, with nothing standing.
pub fn show_eligible(rt: &impl Print, book: &Book) -> anyhow::Result<()> {
    println!(rt; "  unit  band  fast up  fast down  slow up  slow down")?;
    let nothing = Standing::default();
    for entry in book.units() {
        let unit = &entry.unit;
        let number = unit.figures.number;
        let band = Band.eligible(unit, &nothing);
        let fast_up = FAST_UP.eligible(unit, &nothing);
        let fast_down = FAST_DOWN.eligible(unit, &nothing);
        let slow_up = SLOW_UP.eligible(unit, &nothing);
        let slow_down = SLOW_DOWN.eligible(unit, &nothing);
        println!(rt; "{number:>6}{band:>6}{fast_up:>9}{fast_down:>11}{slow_up:>9}{slow_down:>11}")?;
    }
    println!(rt; "")?;
    Ok(())
}
