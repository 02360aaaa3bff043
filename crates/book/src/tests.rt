// Examples: a short history with its answers.
use crate::*;
use std::test::Fail;
use units::figures::Registration;
use units::pair::Pair;
use units::refusal::Refusal;

const UNIT: Registration = Registration {
    number: 7,
    class: 1,
    marks: 3,
    installed: 100,
    minimum: 40,
    band_minimum: 40,
    smallest_band: 2,
    largest_band: 4,
    up_rate: 500,
    down_rate: 1,
};

#[test]
fn calls_answer_by_the_first_line(rt: HostRuntime) {
    let mut book = Book::new();
    let odd = Registration {
        smallest_band: 3,
        ..UNIT
    };
    assert_eq!(rt; book.register(&odd), Err(Refusal::FiguresDisagree));
    assert_eq!(rt; book.register(&UNIT), Ok(()));
    assert_eq!(rt; book.register(&odd), Err(Refusal::NumberTaken));
    assert_eq!(rt; book.declare(0, 0), Err(Refusal::OutOfRange));
    assert_eq!(rt; book.declare(8, 5001), Err(Refusal::OutOfRange));
    assert_eq!(rt; book.declare(8, 5000), Err(Refusal::NoSuchUnit));
    assert_eq!(rt; book.declare(7, 100), Ok(()));
    assert_eq!(rt; book.notify(7, 101), Err(Refusal::BoundBroken));
    assert_eq!(rt; book.close(-10000001), Err(Refusal::OutOfRange));
    assert_eq!(rt; book.close(-10000000), Ok(()));
    assert_eq!(rt; book.close(0), Err(Refusal::AlreadyClosed));
    assert_eq!(rt; book.register(&odd), Err(Refusal::AlreadyClosed));
    assert!(rt; book.is_closed() && book.rows().is_empty());
    assert_eq!(rt; book.units().len(), 1);
}

#[test]
fn closing_gives_one_pair(rt: HostRuntime) -> Result<(), Fail> {
    let mut book = Book::new();
    assert_eq!(rt; book.register(&UNIT), Ok(()));
    assert_eq!(rt; book.close(12), Ok(()));
    let Some(entry) = book.units().first() else {
        return Err(Fail::new("no unit"));
    };
    let Some(offer) = entry.unit.offer else {
        return Err(Fail::new("no offer"));
    };
    let [Pair { quantity, price }] = offer.pairs() else {
        return Err(Fail::new("not one pair"));
    };
    assert_eq!(rt; (*quantity, *price), (100, 12));
    Ok(())
}
