// Cutting records out of lent bytes.
ghost use Rattle.std.specs.Prelude.{◌≡◌, ◌+◌, ◌≤◌, length, IfOk};
ghost use Rattle.records.specs.Frames.{frame_of, next_at, place_after};
ghost use Rattle.records.specs.Readers.{framed, found};

use crate::bytes::figure;
use units::refusal::Refusal;

// A reader of lent bytes: it holds them and its place in them, and copies none.
// The place is kept beside all the bytes, since a fault tells where its record begins.
#[derive(Drop)]
pub struct Reader<'a> {
    src: &'a [u8],
    at: usize,
    ghost within: { at ≤ length src.now },
}

// A record as it is framed: where it begins, its kind, and what follows the kind.
// The kind is a number: it may be one that no kind has.
#[derive(Clone, Copy, Debug, PartialEq, Eq, Hash)]
pub struct Frame<'a> {
    pub offset: usize,
    pub kind: u16,
    pub body: &'a [u8],
}

impl<'a> Reader<'a> {
    // A reader at the first of these bytes.
    pub fn new(src: &'a [u8]) -> Reader<'a>
        ensures holds_the_bytes { result.src.now ≡ src.now }
        ensures starts_at_the_first { result.at ≡ 0 }
    {
        Reader { src, at: 0 }
    }

    // Where the next record begins.
    pub fn offset(&self) -> usize
        ensures is_the_place { result ≡ self.now.at }
    {
        self.at
    }

    // The next record as it is framed, or none at the end. At a refusal the reader stays.
    // No `Iterator`: a refusal comes again and again, so there is no bound on the items, and no `for` may go over them.
    pub fn next(&mut self) -> Option<Result<Frame<'a>, Refusal>>
        ensures keeps_the_bytes { self.new.src.now ≡ self.old.src.now }
        ensures gives_the_frame_at_its_place { found result ≡ next_at self.old.src.now self.old.at }
        ensures moves_past_the_frame { self.new.at ≡ place_after self.old.at (next_at self.old.src.now self.old.at) }
    {
        if self.at == self.src.len() {
            return None;
        }
        let found = cut(self.at, &self.src[self.at..]);
        if let Ok(frame) = &found {
            self.at += 4 + frame.body.len();
        }
        Some(found)
    }
}

// The frame at the front of the bytes that are left.
#[tactic(auto, unfolding(crate::specs::Frames::frame_of))]
fn cut(offset: usize, rest: &[u8]) -> Result<Frame<'_>, Refusal>
    ensures is_the_frame_in_front { framed result ≡ frame_of offset rest.now }
    ensures lies_within { IfOk result (λ f. 4 + length f.body.now ≤ length rest.now) }
{
    let [l0, l1, counted @ ..] = rest else {
        return Err(Refusal::BytesMissing);
    };
    let length = usize::from(figure(*l0, *l1));
    let record = counted.get(..length).ok_or(Refusal::BytesMissing)?;
    let [k0, k1, body @ ..] = record else {
        return Err(Refusal::WrongLength);
    };
    Ok(Frame {
        offset,
        kind: figure(*k0, *k1),
        body,
    })
}
