// What a slip says.

// The number of a selection, the megawatts of its rows, and their cost in bani.
#[derive(Clone, Copy, Debug, PartialEq, Eq, Hash)]
pub struct SlipFigures {
    pub number: u16,
    pub megawatts: u32,
    pub cost: i64,
}
