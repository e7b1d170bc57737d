#![tactic(auto)]

mod carrying;
mod moving;

pub use carrying::{carry, carry_across, move_in_bytes};
pub use moving::move_first;
