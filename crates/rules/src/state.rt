use crate::size::MAX_LINES;
use fabric::{MAX_SHIMS, Word};

// How far stamps and the number of stores go.
pub const STAMP_LIMIT: u32 = 1_000_000;

// How many shims and lines a board has.
#[derive(Clone, Copy)]
pub struct Size {
    pub shims: usize,
    pub lines: usize,
}

// A line at the hub: its word, its stamp, and the shims that are sent updates of it.
#[derive(Clone, Copy, Default)]
pub struct HubLine {
    pub word: Word,
    pub stamp: u32,
    pub sharers: [bool; MAX_SHIMS],
}

// A line that a shim holds.
#[derive(Clone, Copy, PartialEq, Eq, Debug)]
pub struct Held {
    // Whether the hub has answered for the line; its acknowledgement of a store is still to come otherwise.
    pub settled: bool,
    pub copy: Word,
    pub stamp: u32,
}

// What a shim can wait for, and on which line.
#[derive(Clone, Copy, PartialEq, Eq, Debug)]
pub enum Wait {
    Load(u8),
    Store(u8),
    Fence,
}

#[derive(Clone, Copy, Default)]
pub struct Shim {
    // None where the shim is ready.
    pub wait: Option<Wait>,
    // None where the shim does not hold the line.
    pub lines: [Option<Held>; MAX_LINES],
    // Whether a chip has claimed it.
    pub claimed: bool,
}

// What the calls on a board change.
#[derive(Clone, Copy, Default)]
pub struct State {
    // How many stores were accepted.
    pub stores: u32,
    pub hub: [HubLine; MAX_LINES],
    pub shims: [Shim; MAX_SHIMS],
}
