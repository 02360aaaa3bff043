// The ledger: what a book is to be, as definitions (in specs/), and what is proved of it.
#![tactic(auto)]

pub mod row;
pub mod slip;
pub mod theorems;
