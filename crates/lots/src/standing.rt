// What stands of a unit.

// The standing up, down and band megawatts of a unit.
#[derive(Clone, Copy, Debug, Default, PartialEq, Eq, Hash)]
pub struct Standing {
    pub up: u32,
    pub down: u32,
    pub band: u32,
}
