// The units and offers of the worked intervals.
use units::figures::Registration;
use units::pair::Pair;

// A thermal unit of 120 megawatts, qualified for band.
pub fn thermal() -> Registration {
    Registration {
        number: 101,
        class: 1,
        marks: 1,
        installed: 120,
        minimum: 40,
        band_minimum: 50,
        smallest_band: 10,
        largest_band: 40,
        up_rate: 4,
        down_rate: 4,
    }
}

// Another of 100 megawatts, with neither minimum nor band.
pub fn other() -> Registration {
    Registration {
        number: 202,
        class: 2,
        marks: 0,
        installed: 100,
        minimum: 0,
        band_minimum: 0,
        smallest_band: 0,
        largest_band: 0,
        up_rate: 2,
        down_rate: 2,
    }
}

// A unit of 10 megawatts.
pub fn small(number: u16) -> Registration {
    Registration {
        number,
        class: 2,
        marks: 0,
        installed: 10,
        minimum: 0,
        band_minimum: 0,
        smallest_band: 0,
        largest_band: 0,
        up_rate: 1,
        down_rate: 1,
    }
}

pub fn pair(quantity: u32, price: i32) -> Pair {
    Pair { quantity, price }
}
