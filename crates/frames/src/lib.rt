#![tactic(auto)]

mod check;
mod frames;

pub use check::{FramesFault, check_buffer};
pub use frames::Frames;
