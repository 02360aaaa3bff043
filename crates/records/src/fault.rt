// Where records go wrong.
ghost use Rattle.std.specs.Prelude.{◌≡◌, Some};
ghost use Rattle.records.specs.Faults.{layer_number, fault_figures};
ghost use Rattle.records.specs.Playing.{fault_text};

use std::error::Error;
use std::fmt;
use units::refusal::Refusal;

// What a record passes through, in this order.
#[derive(Clone, Copy, Debug, PartialEq, Eq, Hash)]
pub enum Layer {
    Frame = 1,
    Record = 2,
    Book = 3,
}

// Why and in which layer a record is refused, and where it begins.
#[derive(Clone, Copy, Debug, PartialEq, Eq, Hash)]
pub struct Fault {
    pub refusal: Refusal,
    pub layer: Layer,
    pub offset: usize,
}

// `as` reads the number of a variant; Rust has no other form for it.
impl From<Layer> for u16 {
    ghost from_gives = { λ layer number. number ≡ layer_number layer };

    fn from(layer: Layer) -> u16 {
        layer as u16
    }
}

// By hand, since its contract says what it prints.
impl fmt::Display for Fault {
    ghost output = { λ f. Some (fault_text (fault_figures f)) };

    fn fmt<W: fmt::Write>(&self, f: &mut fmt::Formatter<W>) -> fmt::Result {
        let number = u16::from(self.refusal);
        let layer = u16::from(self.layer);
        let offset = self.offset;
        write!(f, "fault,{number},{layer},{offset}")
    }
}

impl Error for Fault {}
