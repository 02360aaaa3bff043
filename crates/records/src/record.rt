// What records ask, and reading it out of a record's body.
ghost use Rattle.std.specs.Prelude.{◌≡◌, ◌≤◌, length, slice_index, Err, IfOk, IfErr, OnOk, ok_or};
ghost use Rattle.units.specs.declared.refusal.Refusal.TheVariants.{UnknownKind};
ghost use Rattle.units.specs.Refusals.{number_of};
ghost use Rattle.records.specs.Kinds.{kind_of, length_of};
ghost use Rattle.records.specs.Decoding.{registration_of, decode_kind, decode_of};
ghost use Rattle.records.specs.Records.{decoded};

use crate::bytes::{figure_at, price_at};
use units::figures::Registration;
use units::refusal::Refusal;

mod pairs;

pub use pairs::PairList;

// The kinds of records, by number.
#[derive(Clone, Copy, Debug, PartialEq, Eq, Hash)]
pub enum Kind {
    Unit = 1,
    Availability = 2,
    Notification = 3,
    Offer = 4,
    Closing = 5,
}

impl TryFrom<u16> for Kind {
    type Error = Refusal;

    ghost try_from_gives = { λ number result. result ≡ ok_or (kind_of number) UnknownKind };

    fn try_from(number: u16) -> Result<Kind, Refusal> {
        match number {
            1 => Ok(Kind::Unit),
            2 => Ok(Kind::Availability),
            3 => Ok(Kind::Notification),
            4 => Ok(Kind::Offer),
            5 => Ok(Kind::Closing),
            _ => Err(Refusal::UnknownKind),
        }
    }
}

impl Kind {
    // The length of a record of this kind, the kind's two bytes counted, with so many pairs if it is an offer.
    pub fn length(self, pairs: u8) -> usize
        ensures is_the_length_of_the_kind { result ≡ length_of self pairs }
    {
        match self {
            Kind::Unit => 20,
            Kind::Availability | Kind::Notification | Kind::Closing => 6,
            Kind::Offer => 5 + 6 * usize::from(pairs),
        }
    }
}

// The call that a record asks for, with its figures as they come.
#[derive(Debug, PartialEq, Eq, Hash, Drop)]
pub enum Record {
    Register(Registration),
    Declare { number: u16, megawatts: u16 },
    Notify { number: u16, megawatts: u16 },
    MakeOffer { number: u16, pairs: PairList },
    Close { price: i32 },
}

// What a record of this kind and body asks for. Any number may be a kind's: one that is none is refused.
pub fn decode(kind: u16, body: &[u8]) -> Result<Record, Refusal>
    ensures is_what_the_bytes_ask { decoded result ≡ decode_of kind body.now }
{
    let kind = Kind::try_from(kind)?;
    let pairs = match kind {
        Kind::Offer => pair_count(body)?,
        _ => 0,
    };
    if 2 + body.len() != kind.length(pairs) {
        return Err(Refusal::WrongLength);
    }
    match kind {
        Kind::Unit => Ok(Record::Register(registration(body))),
        Kind::Availability => Ok(Record::Declare {
            number: figure_at(body, 0),
            megawatts: figure_at(body, 2),
        }),
        Kind::Notification => Ok(Record::Notify {
            number: figure_at(body, 0),
            megawatts: figure_at(body, 2),
        }),
        Kind::Offer => Ok(Record::MakeOffer {
            number: figure_at(body, 0),
            pairs: PairList::of(&body[3..]),
        }),
        Kind::Closing => Ok(Record::Close {
            price: price_at(body, 0),
        }),
    }
}

// The figures of a unit: number, class and marks, then seven others.
fn registration(body: &[u8]) -> Registration
    requires { length body.now ≡ 18 }
    ensures is_every_figure { result ≡ registration_of body.now }
{
    Registration {
        number: figure_at(body, 0),
        class: body[2],
        marks: body[3],
        installed: figure_at(body, 4),
        minimum: figure_at(body, 6),
        band_minimum: figure_at(body, 8),
        smallest_band: figure_at(body, 10),
        largest_band: figure_at(body, 12),
        up_rate: figure_at(body, 14),
        down_rate: figure_at(body, 16),
    }
}

// How many pairs the body of an offer says that it has.
fn pair_count(body: &[u8]) -> Result<u8, Refusal>
    ensures is_the_byte_for_it { IfOk result (λ n. n ≡ slice_index body.now 2) }
    ensures is_one_to_five { IfOk result (λ n. (1 ≤ n) × (n ≤ 5)) }
    ensures has_the_byte { OnOk result (3 ≤ length body.now) }
    ensures refuses_as_the_offer { IfErr result (λ e. decode_kind Kind.Offer body.now ≡ Err (number_of e)) }
{
    match body {
        [_, _, count @ 1..=5, ..] => Ok(*count),
        [_, _, _, ..] => Err(Refusal::OutOfRange),
        _ => Err(Refusal::WrongLength),
    }
}
