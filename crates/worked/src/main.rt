// A whole interval on two units, step by step: each call with its answer, and the units as they stand.
#![tactic(auto)]

mod chosen;
mod figures;
mod offered;

use book::Book;
use chosen::show_choices;
use figures::{other, pair, small, thermal};
use offered::{show_eligible, show_lots};
use units::refusal::Refusal;
use units::unit::GeneratingUnit;

// Prints a step and its answer.
fn told(rt: &impl Print, step: &str, answer: Result<(), Refusal>) -> anyhow::Result<()> {
    match answer {
        Ok(()) => println!(rt; "{step:<48}done")?,
        Err(refusal) => println!(rt; "{step:<48}refused by {refusal}")?,
    }
    Ok(())
}

// Prints a unit as it stands.
fn show(rt: &impl Print, unit: &GeneratingUnit) -> anyhow::Result<()> {
    let number = unit.figures.number;
    let available = unit.availability;
    let notified = unit.notification;
    print!(rt; "{number:>6}{available:>14}{notified:>14}  ")?;
    match unit.offer {
        None => print!(rt; "none")?,
        Some(offer) => {
            for (i, p) in offer.pairs().iter().enumerate() {
                let comma = if i > 0 { ", " } else { "" };
                let quantity = p.quantity;
                let price = p.price;
                print!(rt; "{comma}{quantity} at {price}")?;
            }
        }
    }
    println!(rt; "")?;
    Ok(())
}

fn show_units(rt: &impl Print, book: &Book) -> anyhow::Result<()> {
    println!(rt; "  unit  availability  notification  offer")?;
    for entry in book.units() {
        show(rt, &entry.unit)?;
    }
    println!(rt; "")?;
    Ok(())
}

// Registers a unit, declares its availability and notifies it.
fn enter(rt: &impl Print, book: &mut Book) -> anyhow::Result<()> {
    told(rt, "register unit 101", book.register(&thermal()))?;
    told(rt, "availability of 101: 120", book.declare(101, 120))?;
    told(rt, "notification of 101: 80", book.notify(101, 80))?;
    told(rt, "register unit 202", book.register(&other()))?;
    told(rt, "availability of 202: 90", book.declare(202, 90))?;
    told(rt, "notification of 202: 50", book.notify(202, 50))?;
    told(rt, "register unit 202 once more", book.register(&other()))?;
    told(rt, "availability of unit 303: 10", book.declare(303, 10))
}

// Offers of 101 that are refused, and then those of both units.
fn offer(rt: &impl Print, book: &mut Book) -> anyhow::Result<()> {
    let short = [pair(60, 20000), pair(59, 40000)];
    told(rt, "offer of 101: 60 and 59", book.offer(101, &short))?;
    let level = [pair(60, 20000), pair(60, 20000)];
    told(
        rt,
        "offer of 101: two equal prices",
        book.offer(101, &level),
    )?;
    let six = [
        pair(20, 1),
        pair(20, 2),
        pair(20, 3),
        pair(20, 4),
        pair(20, 5),
        pair(20, 6),
    ];
    told(rt, "offer of 101: six pairs", book.offer(101, &six))?;
    let five = [
        pair(24, 1),
        pair(24, 2),
        pair(24, 3),
        pair(24, 4),
        pair(24, 5),
    ];
    told(rt, "offer of 101: five pairs", book.offer(101, &five))?;
    let of_101 = [pair(60, 20000), pair(60, 40000)];
    told(rt, "offer of 101: 60 and 60", book.offer(101, &of_101))?;
    let of_202 = [pair(50, 10000), pair(30, 35000), pair(20, 50000)];
    told(rt, "offer of 202: 50, 30 and 20", book.offer(202, &of_202))?;
    told(rt, "close at 30000", book.close(30000))?;
    told(rt, "offer of 101 after closing", book.offer(101, &of_101))
}

// After closing a notification moves the offer.
fn move_offers(rt: &impl Print, book: &mut Book) -> anyhow::Result<()> {
    told(rt, "availability of 101: 121", book.declare(101, 121))?;
    told(rt, "notification of 101: 121", book.notify(101, 121))?;
    told(rt, "notification of 101: 100", book.notify(101, 100))?;
    show_units(rt, book)?;
    told(rt, "notification of 101: 60", book.notify(101, 60))?;
    show_units(rt, book)
}

// A book takes 32 units, and no more.
fn fill(rt: &impl Print) -> anyhow::Result<()> {
    let mut book = Book::new();
    for number in 1..=31u16 {
        let _ = book.register(&small(number));
    }
    told(
        rt,
        "in a book of 31 units, register unit 32",
        book.register(&small(32)),
    )?;
    told(rt, "register unit 33", book.register(&small(33)))?;
    told(rt, "close at 10000001", book.close(10000001))?;
    told(rt, "close at -10000000", book.close(-10000000))?;
    if let Some(entry) = book.units().first() {
        println!(rt; "  unit  availability  notification  offer")?;
        show(rt, &entry.unit)?;
    }
    Ok(())
}

fn run(rt: &impl Print) -> anyhow::Result<()> {
    let mut book = Book::new();
    enter(rt, &mut book)?;
    offer(rt, &mut book)?;
    show_units(rt, &book)?;
    show_lots(rt, &book)?;
    show_eligible(rt, &book)?;
    show_choices(rt, &book)?;
    move_offers(rt, &mut book)?;
    fill(rt)
}

fn main(rt: HostRuntime) -> anyhow::Result<()> {
    run(&rt)
}
