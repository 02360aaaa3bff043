// Records over lent bytes: cutting them, what each asks for, and playing them on a book.
#![tactic(auto)]

mod bytes;
pub mod fault;
pub mod play;
pub mod reader;
pub mod record;
#[cfg(test)]
mod tests;
