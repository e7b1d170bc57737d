#![tactic(auto)]

mod queues;
mod rows;
mod slots;

pub use queues::{capacity, lane_count, look, put, take, waiting};
pub use rows::{Rows, Span};
pub use slots::Slots;
