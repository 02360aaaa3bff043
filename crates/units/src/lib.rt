// Units, their figures and offers, and what may be asked of one unit alone.
#![tactic(auto)]

pub mod figures;
pub mod offer;
pub mod pair;
pub mod refusal;
pub mod side;
#[cfg(test)]
mod tests;
pub mod unit;
