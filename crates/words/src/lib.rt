// Run sheets as bytes: where a word and a line end, the number that a word writes, and what can be wrong at a place.
#![tactic(auto)]

mod fault;
mod parts;
mod text;

pub use fault::{Fault, FaultKind};
pub use parts::write_parts;
pub use text::{line_length, number, word_length};
