// The refusals, each with its number.
ghost use Rattle.std.specs.Prelude.{◌≡◌};
ghost use Rattle.units.specs.Refusals.{number_of};

use std::error::Error;
use std::fmt;

// Why a call, a record or a listing is refused.
#[derive(Clone, Copy, Debug, PartialEq, Eq, Hash)]
pub enum Refusal {
    OutOfRange = 1,
    AlreadyClosed = 2,
    NotClosed = 3,
    NoSuchUnit = 4,
    NumberTaken = 5,
    UnitsFull = 6,
    FiguresDisagree = 7,
    BoundBroken = 8,
    RowsStand = 9,
    PricesNotRising = 10,
    SumDiffers = 11,
    EnergyStands = 12,
    NothingEligible = 13,
    NumbersSpent = 14,
    RowsFull = 15,
    NoOpenSelection = 16,
    ListingTooLong = 17,
    BytesMissing = 18,
    UnknownKind = 19,
    WrongLength = 20,
}

// `as` reads the number of a variant; Rust has no other form for it.
impl From<Refusal> for u16 {
    ghost from_gives = { λ refusal n. n ≡ number_of refusal };

    fn from(refusal: Refusal) -> u16 {
        refusal as u16
    }
}

impl Refusal {
    // What the number means, in a few words.
    fn meaning(self) -> &'static str {
        match self {
            Refusal::OutOfRange => "a figure is out of its range",
            Refusal::AlreadyClosed => "the book is closed",
            Refusal::NotClosed => "the book is not closed",
            Refusal::NoSuchUnit => "no such unit",
            Refusal::NumberTaken => "the number is already registered",
            Refusal::UnitsFull => "32 units stand",
            Refusal::FiguresDisagree => "minima above installed power, bands crossed or odd",
            Refusal::BoundBroken => "availability or notification breaks its bound",
            Refusal::RowsStand => "the unit has standing rows",
            Refusal::PricesNotRising => "a price is not above the one before",
            Refusal::SumDiffers => "quantities do not sum to installed power",
            Refusal::EnergyStands => "an up or down row stands",
            Refusal::NothingEligible => "total eligible energy is 0",
            Refusal::NumbersSpent => "selection number 65535 was given",
            Refusal::RowsFull => "more rows are needed than are free",
            Refusal::NoOpenSelection => "no open selection has these figures",
            Refusal::ListingTooLong => "the listing does not fit",
            Refusal::BytesMissing => "fewer bytes are left than the record counts",
            Refusal::UnknownKind => "the record's kind is not listed",
            Refusal::WrongLength => "the record's length is not that of its kind",
        }
    }
}

// By hand: each message of a derive would repeat its number.
impl fmt::Display for Refusal {
    fn fmt<W: fmt::Write>(&self, f: &mut fmt::Formatter<W>) -> fmt::Result {
        let number = u16::from(*self);
        let meaning = self.meaning();
        write!(f, "{number} {meaning}")
    }
}

impl Error for Refusal {}
