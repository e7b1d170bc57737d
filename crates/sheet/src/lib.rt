// Run sheets: what a sheet holds, and which byte is wrong where it is not well formed.
#![tactic(auto)]

mod input;
mod line;
mod names;
mod op;
mod reader;
mod token;

pub use input::read_sheet;
pub use line::{Board, FabricName, Line};
pub use reader::{Reader, SIZE_LIMIT};
