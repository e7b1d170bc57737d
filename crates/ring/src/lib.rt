#![tactic(auto)]

mod ring;

pub use ring::{RING_CAPACITY, Ring};
