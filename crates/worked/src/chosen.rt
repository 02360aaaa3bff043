// What is chosen of the units of a book as it stands.
use book::Book;
use lots::lot::{BandLot, EnergyLot, Lot};
use markets::choice::Choice;
use markets::market::{Band, FAST_DOWN, FAST_UP};
use markets::rule::{ByNumber, Faster};
use markets::stack::stack_of;
use units::side::{MarketNumber, Side};

// Prints what was chosen, in merit order.
fn show_choice<L: Lot>(rt: &impl Print, what: &str, choice: &Choice<L>) -> anyhow::Result<()> {
    let total = choice.megawatts();
    println!(rt; "{what}: {total} megawatts")?;
    for chosen in choice.lots() {
        let unit = chosen.unit;
        let up = chosen.lot.up();
        let down = chosen.lot.down();
        let megawatts = chosen.megawatts;
        let cost = chosen.lot.cost();
        println!(rt; "{unit:>6}{up:>11}{down:>6}{megawatts:>11}{cost:>10}")?;
    }
    Ok(())
}

// Prints the choices of some demands, through a stack of each depth.
pub fn show_choices(rt: &impl Print, book: &Book) -> anyhow::Result<()> {
    println!(rt; "  unit         up  down  megawatts      cost")?;
    let by_number: Choice<EnergyLot> = book.choose(&FAST_UP, &ByNumber, 50);
    show_choice(rt, "fast up 50, by number", &by_number)?;
    let faster = Faster {
        side: Side::Up,
        below: ByNumber,
    };
    let all: Choice<EnergyLot> = book.choose(&FAST_UP, &faster, 71);
    show_choice(rt, "fast up 71, faster over number", &all)?;
    let down: Choice<EnergyLot> = book.choose(&FAST_DOWN, &stack_of(MarketNumber::FastDown), 60);
    show_choice(rt, "fast down 60, priority over that", &down)?;
    let both: Choice<BandLot> = book.choose(&Band, &stack_of(MarketNumber::Band), 25);
    show_choice(rt, "band 25, faster over number", &both)?;
    println!(rt; "")?;
    Ok(())
}
