// The lots of one side of a unit, in a list of fixed room.
ghost use Rattle.std.specs.Prelude.{◌≡◌, ◌+◌, ◌<◌, ◌≤◌, [], ◌∷◌, ◌++◌, length, if◌then◌else◌, nat_lt};

use arrayvec::ArrayVec;

// At most 25 lots: 5 upper pairs by 5 lower ones.
#[derive(Drop)]
pub struct LotList<L> {
    lots: ArrayVec<L, 25>,
    ghost within: { length lots.items ≤ 25 },
}

impl<L: Copy> LotList<L> {
    ghost use Rattle.lots.specs.Values.{listed};

    pub(crate) fn new() -> LotList<L>
    where
        L: Default,
        ensures has_no_lots { listed result ≡ [] }
    {
        LotList {
            lots: ArrayVec::new(),
        }
    }

    // Adds a lot of this size, unless that is 0.
    // The size stands beside the lot: asked of the lot as `Lot::size`, it would bring `Lot::lots_of` into a cycle of calls, since that adds lots.
    pub(crate) fn add(&mut self, lot: L, size: u32)
        requires { length (listed self.old) < 25 }
        ensures adds_a_lot_with_megawatts { listed self.new ≡ (if nat_lt 0 size then listed self.old ++ (lot ∷ []) else listed self.old) }
        ensures counts_one_more_at_most { length (listed self.new) ≤ length (listed self.old) + 1 }
    {
        if size > 0 {
            self.lots.push(lot);
        }
    }

    pub fn as_slice(&self) -> &[L]
        ensures lends_the_lots { result.now ≡ listed self.now }
        ensures lends_at_most_25 { length result.now ≤ 25 }
    {
        self.lots.as_slice()
    }
}
