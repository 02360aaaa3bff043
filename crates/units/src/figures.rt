// What is registered of a unit, as it arrives and as it is kept.
ghost use Rattle.std.specs.Prelude.{◌≡◌};
ghost use Rattle.units.specs.Registrations.{in_range, agrees, marks_of, figures_of, IsClassNumbered};

use crate::refusal::Refusal;

// The figures of a unit as they arrive, not yet checked.
// Class and marks are numbers here, since a book refuses those out of range itself, and in its turn;
// so these are not the `Figures` that are kept, with two fields more.
#[derive(Clone, Copy, Debug, PartialEq, Eq, Hash)]
pub struct Registration {
    pub number: u16,
    pub class: u8,
    pub marks: u8,
    pub installed: u16,
    pub minimum: u16,
    pub band_minimum: u16,
    pub smallest_band: u16,
    pub largest_band: u16,
    pub up_rate: u16,
    pub down_rate: u16,
}

#[derive(Clone, Copy, Debug, Default, PartialEq, Eq, Hash)]
pub enum Class {
    Thermal,
    #[default]
    Other,
}

// What a unit is marked as: qualified for band, and of priority.
#[derive(Clone, Copy, Debug, Default, PartialEq, Eq, Hash)]
pub struct Marks {
    pub qualified: bool,
    pub priority: bool,
}

// The registered figures of a unit: megawatts, and megawatts a minute for the rates.
#[derive(Clone, Copy, Debug, Default, PartialEq, Eq, Hash)]
pub struct Figures {
    pub number: u16,
    pub class: Class,
    pub marks: Marks,
    pub installed: u16,
    pub minimum: u16,
    pub band_minimum: u16,
    pub smallest_band: u16,
    pub largest_band: u16,
    pub up_rate: u16,
    pub down_rate: u16,
}

impl Registration {
    // Whether every figure lies in its range. Plain comparisons: by `contains` the proof of all ten did not close.
    pub fn in_range(&self) -> bool
        ensures tells_the_ranges { result ≡ in_range self.now }
    {
        1 <= self.number
            && Class::try_from(self.class).is_ok()
            && self.marks <= 3
            && (1 <= self.installed && self.installed <= 5000)
            && self.minimum <= 5000
            && self.band_minimum <= 5000
            && self.smallest_band <= 5000
            && self.largest_band <= 5000
            && (1 <= self.up_rate && self.up_rate <= 500)
            && (1 <= self.down_rate && self.down_rate <= 500)
    }

    // Whether minima and bands agree with installed power and with each other.
    pub fn agrees(&self) -> bool
        ensures tells_the_agreement { result ≡ agrees self.now }
    {
        self.minimum <= self.installed
            && self.band_minimum <= self.installed
            && self.smallest_band <= self.largest_band
            && self.smallest_band % 2 == 0
            && self.largest_band % 2 == 0
    }
}

// 1 is thermal, 2 any other; no other number is a class.
impl TryFrom<u8> for Class {
    type Error = Refusal;

    ghost try_from_gives = { IsClassNumbered };

    fn try_from(number: u8) -> Result<Class, Refusal> {
        match number {
            1 => Ok(Class::Thermal),
            2 => Ok(Class::Other),
            _ => Err(Refusal::OutOfRange),
        }
    }
}

// Bit 0 is qualified, bit 1 priority; other bits are not looked at.
impl From<u8> for Marks {
    ghost from_gives = { λ bits marks. marks ≡ marks_of bits };

    fn from(bits: u8) -> Marks {
        Marks {
            qualified: bits % 2 == 1,
            priority: bits / 2 % 2 == 1,
        }
    }
}

// The figures as the book keeps them. A class out of range, which no book registers, counts as other.
impl From<Registration> for Figures {
    ghost from_gives = { λ registration figures. figures ≡ figures_of registration };

    fn from(registration: Registration) -> Figures {
        Figures {
            number: registration.number,
            class: Class::try_from(registration.class).unwrap_or(Class::Other),
            marks: Marks::from(registration.marks),
            installed: registration.installed,
            minimum: registration.minimum,
            band_minimum: registration.band_minimum,
            smallest_band: registration.smallest_band,
            largest_band: registration.largest_band,
            up_rate: registration.up_rate,
            down_rate: registration.down_rate,
        }
    }
}
