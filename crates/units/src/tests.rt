// Examples, as tables.
use crate::figures::*;
use crate::offer::*;
use crate::pair::*;
use crate::refusal::*;
use crate::unit::*;

// A unit of so many megawatts, with two pairs, all of it available and this much notified.
fn unit(first: u16, second: u16, notified: u16) -> GeneratingUnit {
    let installed = first.saturating_add(second);
    let mut unit = GeneratingUnit::new(Registration {
        number: 1,
        class: 2,
        marks: 2,
        installed,
        minimum: 0,
        band_minimum: 0,
        smallest_band: 0,
        largest_band: 0,
        up_rate: 1,
        down_rate: 1,
    }
    .into());
    let pairs = [
        Pair {
            quantity: first as u32,
            price: -5,
        },
        Pair {
            quantity: second as u32,
            price: 7,
        },
    ];
    let _ = unit.declare(installed);
    let _ = unit.notify(false, notified);
    if let Some(offer) = Offer::new(&pairs) {
        let _ = unit.offer(offer);
    }
    let _ = unit.close(0);
    unit
}

// The quantities of a unit's offer, the first two.
fn quantities(unit: &GeneratingUnit) -> (u32, u32) {
    let Some(offer) = unit.offer else {
        return (0, 0);
    };
    match offer.pairs() {
        [a, b] => (a.quantity, b.quantity),
        [a] => (a.quantity, 0),
        _ => (0, 0),
    }
}

#[test]
fn a_notification_moves_the_offer(rt: HostRuntime) {
    // first pair, second pair, notified before, notified after, the pairs then
    let table: [(u16, u16, u16, u16, u32, u32); 6] = [
        (60, 60, 80, 100, 80, 40),
        (60, 60, 80, 60, 40, 80),
        (60, 60, 80, 80, 60, 60),
        (60, 60, 20, 120, 120, 0),
        (60, 60, 120, 0, 0, 120),
        (10, 110, 50, 30, 0, 120),
    ];
    for (first, second, before, after, a, b) in table {
        let mut u = unit(first, second, before);
        assert!(rt; u.notify(true, after).is_ok());
        assert_eq!(rt; quantities(&u), (a, b));
    }
}

#[test]
fn refusals_have_their_numbers(rt: HostRuntime) {
    let mut u = unit(60, 60, 80);
    assert_eq!(rt; u.declare(121), Err(Refusal::BoundBroken));
    assert_eq!(rt; u.declare(79), Err(Refusal::BoundBroken));
    assert_eq!(rt; u.notify(true, 121), Err(Refusal::BoundBroken));
    assert_eq!(rt; u.declare(80), Ok(()));
    assert_eq!(rt; u16::from(Refusal::BoundBroken), 8);
    assert!(rt; u.figures.marks.priority && !u.figures.marks.qualified);
}
