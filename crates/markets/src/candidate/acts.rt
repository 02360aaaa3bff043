// Making candidates.
ghost use Rattle.std.specs.Prelude.{◌≡◌, ◌<◌, ◌≤◌, ◌↔◌, [], ◌∷◌, ◌++◌, map, length, IsOk, OnOk, OnErr};
ghost use Rattle.markets.specs.Candidates.{remaining, entered, units_in, owned, queues};

use super::{Candidate, Candidates, Left, NoRoom};
use arrayvec::ArrayVec;
use lots::lot::Lot;
use units::figures::Figures;

impl<L: Lot> Candidates<L> {
    // No units; any lot fills the room that is not used.
    pub fn new(filler: L) -> Candidates<L>
        ensures has_no_units { units_in result ≡ [] }
    {
        Candidates {
            units: ArrayVec::new(),
            lots: ArrayVec::new_in(filler),
        }
    }

    // Some lot, to fill room with.
    pub(crate) fn filler(&self) -> L {
        *self.lots.allocator()
    }

    // Adds a unit with its lots, which are to come in rising cost, unless 32 units stand or it has more than 25 lots.
    pub fn add(&mut self, figures: Figures, eligible: u32, lots: &[Left<L>]) -> Result<(), NoRoom>
        ensures tells_whether_there_is_room { IsOk result ↔ ((length (units_in self.old) < 32) × (length lots.now ≤ 25)) }
        ensures refused_unit_changes_nothing { OnErr result (self.new ≡ self.old) }
        ensures adds_the_unit { OnOk result (units_in self.new ≡ units_in self.old ++ entered figures eligible ∷ []) }
        ensures adds_its_lots { OnOk result (owned self.new ≡ owned self.old ++ lots.now ∷ []) }
        ensures adds_its_queue { OnOk result (queues L.Lot.figures self.new ≡ queues L.Lot.figures self.old ++ map (remaining L.Lot.figures figures) lots.now ∷ []) }
    {
        if self.units.is_full() || lots.len() > 25 {
            return Err(NoRoom);
        }
        let next = self.lots.len();
        self.lots.try_extend_from_slice(lots)?;
        self.units.push(Candidate {
            figures,
            eligible,
            next,
            count: lots.len(),
        });
        Ok(())
    }
}
