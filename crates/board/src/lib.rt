// The board: a hub and its shims over any fabric. Each call gives what its rule in the crate `rules` says.
#![tactic(auto)]

mod act;
mod board;
mod call;
mod checks;
mod claim;
mod down;
mod evict;
mod fence;
mod lanes;
mod load;
mod make;
mod store;
mod turn;
mod up;

pub use board::Board;
