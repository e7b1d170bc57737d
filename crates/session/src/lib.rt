// A sheet that is run: what it prints, item by item, and the bytes of each.
#![tactic(auto)]

mod carrier;
mod next;
mod open;
mod printed;
mod printer;
mod rig;
mod session;

pub use carrier::BUFFER_LEN;
pub use printed::Printed;
pub use printer::{report, write};
pub use session::Session;
