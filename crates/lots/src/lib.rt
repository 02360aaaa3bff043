// The lots of a unit, and what stands of them.
#![tactic(auto)]

pub mod list;
pub mod lot;
pub mod span;
pub mod standing;
pub mod theorems;
