// What a message does: at the hub, whose line changes and which sends others, and at a shim, whose line and wait change.
#![tactic(auto)]

mod hub;
mod shim;

pub use hub::Request;
pub use shim::deliver;
