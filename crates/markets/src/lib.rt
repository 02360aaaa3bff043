// Markets, tie rules, and choosing in merit order.
#![tactic(auto)]

pub mod candidate;
pub mod choice;
pub mod choose;
pub mod market;
pub mod rule;
pub mod stack;
pub mod theorems;

pub use either;
