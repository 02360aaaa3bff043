// Rows: what was selected of one lot.
use units::side::MarketNumber;

// A selection is open until it is confirmed.
#[derive(Clone, Copy, Debug, Default, PartialEq, Eq, Hash)]
pub enum State {
    #[default]
    Open,
    Confirmed,
}

// One lot used by one selection. A row stands while the book has it.
#[derive(Clone, Copy, Debug, Default, PartialEq, Eq, Hash)]
pub struct Row {
    // the number of the selection
    pub selection: u16,
    pub market: MarketNumber,
    // the number of the unit
    pub unit: u16,
    // the lot's upper and lower pair, counted from 1; 0 for none, as the listing has it,
    // so that the ledger's definitions and the listing read one number
    pub up: u8,
    pub down: u8,
    pub megawatts: u32,
    // the lot's cost, in bani per megawatt
    pub cost: i32,
    pub state: State,
}
