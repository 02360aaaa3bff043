// Slips.
ghost use Rattle.std.specs.Prelude.{◌≡◌};
ghost use Rattle.book.specs.Slips.{figures_of};

use ledger::slip::SlipFigures;

// What an accepted selection hands out: its number, the megawatts of its rows, and their cost.
// It is owed back to its book by one confirmation or one withdrawal, so it is neither copied nor let go.
pub struct Slip {
    figures: SlipFigures,
}

impl Slip {
    // The three numbers of the slip.
    pub fn figures(&self) -> SlipFigures
        ensures tells_the_three_numbers { result ≡ figures_of self.now }
    {
        self.figures
    }

    // The slip of a selection that was just made.
    pub(crate) fn of(figures: SlipFigures) -> Slip
        ensures has_the_figures { figures_of result ≡ figures }
    {
        Slip { figures }
    }

    // Ends a slip whose selection was just settled.
    pub(crate) fn end(self) {
        let Slip { figures: _ } = self;
    }
}
