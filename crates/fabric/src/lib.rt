#![tactic(auto)]

mod fabric;
mod fault;
mod frame;
mod message;

pub use fabric::{Fabric, LANES_PER_SHIM, MAX_CAPACITY, MAX_LANES, MAX_SHIMS};
pub use fault::FabricFault;
pub use frame::{FRAME_LEN, decode, encode};
pub use message::{Message, Word};
