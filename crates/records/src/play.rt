// Playing records on a new book. A record's call has the two clauses that the book's calls have.
ghost use Rattle.std.specs.Prelude.{◌≡◌};
ghost use Rattle.ledger.specs.Calls.{step};
ghost use Rattle.book.specs.Books.{ledger_of, answer_of};
ghost use Rattle.records.specs.Records.{call_of};
ghost use Rattle.records.specs.Readers.{framed};
ghost use Rattle.records.specs.Playing.{taken_up, played_on, played};
ghost use Rattle.records.specs.Faults.{fault_of, stopped_by};

use crate::fault::{Fault, Layer};
use crate::reader::{Frame, Reader};
use crate::record::{Record, decode};
use book::Book;
use units::refusal::Refusal;

// The most bytes that the program plays of its input.
pub const INPUT_LIMIT: usize = 65536;

// The book after the records, and the fault that stopped them if one did.
#[derive(Drop)]
pub struct Played {
    pub book: Book,
    pub fault: Option<Fault>,
}

// Makes the call that a record asks for.
pub fn carry_out(book: &mut Book, record: &Record) -> Result<(), Refusal>
    ensures answers_as_the_ledger { answer_of result ≡ (step (ledger_of book.old) (call_of «record».now)).1 }
    ensures is_the_ledger_after_the_call { ledger_of book.new ≡ (step (ledger_of book.old) (call_of «record».now)).0 }
{
    match record {
        Record::Register(registration) => book.register(registration),
        Record::Declare { number, megawatts } => book.declare(*number, *megawatts),
        Record::Notify { number, megawatts } => book.notify(*number, *megawatts),
        Record::MakeOffer { number, pairs } => book.offer(*number, pairs.as_slice()),
        Record::Close { price } => book.close(*price),
    }
}

// Takes what the reader found at an offset through the three layers.
fn take_up(book: &mut Book, offset: usize, found: Result<Frame<'_>, Refusal>) -> Result<(), Fault>
    ensures stopped_by_the_first_layer { stopped_by result ≡ (taken_up offset (ledger_of book.old) (framed found.entry)).1 }
    ensures is_the_ledger_after_the_record { ledger_of book.new ≡ (taken_up offset (ledger_of book.old) (framed found.entry)).0 }
{
    let fault = |layer, refusal| Fault {
        refusal,
        layer,
        offset,
    };
    let frame = found.map_err(|refusal| fault(Layer::Frame, refusal))?;
    let record = decode(frame.kind, frame.body).map_err(|refusal| fault(Layer::Record, refusal))?;
    carry_out(book, &record).map_err(|refusal| fault(Layer::Book, refusal))
}

// Plays the records of these bytes on a book, up to the first fault.
#[tactic(auto, using(crate::proofs::Playing::left_none, crate::proofs::Playing::left_more, crate::proofs::Playing::passes))]
fn play_on(book: &mut Book, src: &[u8]) -> Result<(), Fault>
    ensures book_is_the_ledger_of_the_records { ledger_of book.new ≡ (played_on (ledger_of book.old) src.now).0 }
    ensures stopped_by_the_first_of_the_records { stopped_by result ≡ (played_on (ledger_of book.old) src.now).1 }
{
    let mut reader = Reader::new(src);
    loop {
        let offset = reader.offset();
        let Some(found) = reader.next() else {
            return Ok(());
        };
        take_up(book, offset, found)?;
    }
}

// Plays the records of these bytes on a new book, up to the first fault.
pub fn play(src: &[u8]) -> Played
    ensures book_is_the_ledger_of_the_records { ledger_of result.book ≡ (played src.now).0 }
    ensures fault_is_the_first_of_the_records { fault_of result.fault ≡ (played src.now).1 }
{
    let mut book = Book::new();
    let fault = play_on(&mut book, src).err();
    Played { book, fault }
}
